// The varyings of an asked type with its binding: 90, 91, 92, 4, or their number, and their words.
ghost use Rattle.std.specs.Prelude.{◌≡◌, ◌+◌, ◌<◌, ◌≤◌, length};
ghost use Rattle.word.specs.Refusals.{answer_with};
ghost use Rattle.type_lists.specs.Format.{read_binding};
ghost use Rattle.type_lists.specs.Rules.{populate};
ghost use Rattle.type_check.specs.Inner.Positions.{binding_of, earlier_of};
ghost use Rattle.type_check.specs.Inner.Notes.{words_of};
ghost use Rattle.populate.specs.Populate.{populated, bound_on, populate_call};
ghost use Rattle.populate.specs.Inner.Written.{put, room};

use crate::put::Binding;
use crate::walk::populate;
use type_check::bound::binding_next;
use type_check::clips::binding_good;
use type_check::given::given_note;
use type_check::index::index_types;
use type_check::notes::TypeNote;
use type_check::types::{TypeTable, Types};
use word::refusal::{Number, Refusal};

// Writes the varyings of the asked type.
fn put_varyings(types: &Types<'_>, asked: usize, binding: Binding, out: &mut [u32])
    requires inside { asked < types.now.count }
    requires room { 0 + length (words_of (populate (earlier_of types.now.table.words.now types.now.count) asked (binding_of binding.first binding.second))) ≤ room out.old }
    ensures { out.new ≡ (put out.old 0 (words_of (populate (earlier_of types.now.table.words.now types.now.count) asked (binding_of binding.first binding.second)))).1 }
{
    let mut written: [Option<u8>; 256] = [None; 256];
    populate(types, asked, binding, out, 0, &mut written);
}

// The answer on the asked type with a binding that is well formed.
fn populate_asked(
    types: &Types<'_>,
    asked: usize,
    binding: Binding,
    out: &mut [u32],
) -> Result<u32, Refusal>
    requires { asked < types.now.count }
    ensures { (answer_with result, out.new) ≡ populated (earlier_of types.now.table.words.now types.now.count) asked (binding_of binding.first binding.second) out.old }
{
    let note = given_note(&types.table, asked, binding.first);
    if 8 < note.depth {
        return Err(Refusal::plain(Number::NestedTooDeep));
    }
    if 63 < note.count {
        return Err(Refusal::plain(Number::TooManyVaryings));
    }
    if out.len() < usize::from(note.words) {
        return Err(Refusal::plain(Number::ShortOut));
    }
    put_varyings(types, asked, binding, out);
    Ok(u32::from(note.count))
}

// The answer on the asked type with its binding, which is one whole binding and may stand on the type.
fn populate_bound(
    types: &Types<'_>,
    asked: usize,
    words: &[u32],
    out: &mut [u32],
) -> Result<u32, Refusal>
    requires { asked < types.now.count }
    ensures { (answer_with result, out.new) ≡ bound_on (earlier_of types.now.table.words.now types.now.count) asked (read_binding words.now) out.old }
{
    if binding_next(words, 0) != Some(words.len()) {
        return Err(Refusal::plain(Number::BadTypes));
    }
    let binding = Binding::at(words, 0);
    if !binding_good(&types.table, asked, binding.first) {
        return Err(Refusal::plain(Number::BadTypes));
    }
    populate_asked(types, asked, binding, out)
}

// The varyings of a type of a list with its binding, written one behind the other; their count is the first detail.
pub fn populate_types(
    types: &[u32],
    asked: u32,
    binding: &[u32],
    out: &mut [u32],
) -> Result<u32, Refusal>
    ensures { (answer_with result, out.new) ≡ populate_call types.now asked binding.now out.old }
{
    let mut notes = [TypeNote::NONE; 256];
    if !index_types(types, &mut notes) {
        return Err(Refusal::plain(Number::BadTypes));
    }
    let count = word::content(word::word(types, 0));
    if count <= asked {
        return Err(Refusal::plain(Number::BadTypes));
    }
    let table = TypeTable {
        words: types,
        notes: &notes,
    };
    let declared = Types {
        table,
        count: count as usize,
    };
    populate_bound(&declared, asked as usize, binding, out)
}
