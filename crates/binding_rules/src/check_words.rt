// A lone resource against a lone entry, and the entry type that a lone resource asks for, both given and answered in words.
ghost use Rattle.std.specs.Prelude.{◌≡◌, true};
ghost use Rattle.word.specs.Choice.{pick};
ghost use Rattle.word.specs.Answers.{refused};
ghost use Rattle.word.specs.Numbers.{malformed_pack, bad_call};
ghost use Rattle.word.specs.declared.answer.Answer.{Answer};
ghost use Rattle.bindings.specs.Format.{read_resource, resource_at, resource_encodable, entry_at};
ghost use Rattle.word.specs.Refusals.{answer_of};
ghost use Rattle.binding_rules.specs.Words.{entry_answer};
ghost use Rattle.bindings.specs.Answers.{only_resource, only_entry, check_words, derive_words};
ghost use Rattle.bindings.specs.declared.types.Resource.{Resource};
ghost use Rattle.bindings.specs.declared.types.BindGroupLayoutEntry.{BindGroupLayoutEntry};

use crate::derives::derive_binding_type;
use crate::uses::check_binding_use;
use bindings::answers::binding_refusal;
use bindings::binding_codes::{binding_word, least_word};
use bindings::entry_words::{entry_at, entry_well_formed};
use bindings::resource_words::{resource_at, resource_next};
use word::refusal::{Number, Refusal};

// Whether the words are a resource and nothing more.
fn resource_alone(ws: &[u32]) -> bool
    ensures meaning { (k : Resource → Answer) → only_resource (read_resource ws.now) k
        ≡ pick result (k (resource_at ws.now 0)) (refused malformed_pack) }
    ensures encodable { result ≡ true → resource_encodable (resource_at ws.now 0) ≡ true }
{
    resource_next(ws, 0) == Some(ws.len())
}

// Whether the words are an entry and nothing more.
fn entry_alone(ws: &[u32]) -> bool
    ensures { (k : BindGroupLayoutEntry → Answer) → only_entry ws.now k
        ≡ pick result (k (entry_at ws.now 0)) (refused bad_call) }
{
    ws.len() == 4 && entry_well_formed(ws, 0)
}

// Whether an entry serves a resource.
pub fn check_words(resource: &[u32], entry: &[u32]) -> Result<(), Refusal>
    ensures { answer_of result ≡ check_words resource.now entry.now }
{
    if !resource_alone(resource) {
        return Err(Refusal::plain(Number::MalformedPack));
    }
    if !entry_alone(entry) {
        return Err(Refusal::plain(Number::BadCall));
    }
    let r = resource_at(resource, 0);
    let e = entry_at(entry, 0);
    match check_binding_use(r.ty, e.ty) {
        Ok(()) => Ok(()),
        Err(error) => Err(binding_refusal(error.into(), r.bind)),
    }
}

// The words of an entry that a resource asks for: its type and its least size.
#[derive(Clone, Copy, Debug, PartialEq, Eq)]
pub struct EntryWords {
    pub ty: u32,
    pub least: u32,
}

// The type word and the least-size word of the entry that a resource asks for.
pub fn derive_words(resource: &[u32], named: bool) -> Result<EntryWords, Refusal>
    ensures { entry_answer result ≡ derive_words resource.now named }
{
    if !resource_alone(resource) {
        return Err(Refusal::plain(Number::MalformedPack));
    }
    let r = resource_at(resource, 0);
    match derive_binding_type(r.ty, named) {
        Ok(ty) => Ok(EntryWords {
            ty: binding_word(ty),
            least: least_word(ty),
        }),
        Err(error) => Err(binding_refusal(error.into(), r.bind)),
    }
}
