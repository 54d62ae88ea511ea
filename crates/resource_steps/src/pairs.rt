// Textures and the samplers they are sampled with, against a provided layout.
ghost use Rattle.std.specs.Prelude.{◌≡◌, true, length};
ghost use Rattle.word.specs.Words.{bits};
ghost use Rattle.word.specs.Numbers.{number_of};
ghost use Rattle.word.specs.Refusals.{answer_of, refusal_answer, number_or_none};
ghost use Rattle.bindings.specs.Format.{place_of, sample_at, binding_type_of};
ghost use Rattle.layouts.specs.Format.{decode_layout};
ghost use Rattle.interface.specs.Format.{pair_of, pairs_of};
ghost use Rattle.resource_steps.specs.Inner.Given.{pair_below, pairs_below, WordMeans};
ghost use Rattle.resource_steps.specs.Resources.{filtering, sample_number, pair_number, type_at, pair_answer, pair_use, pair_uses};

use crate::resources::noted;
use crate::table::ResourceTable;
use interface::reads::pair_of;
use layouts::layout::LayoutList;
use word::content;
use word::refusal::{Number, Refusal};

// Whether a type word is a filtering sampler's.
#[tactic(auto, unfolding(bindings::specs::Format::binding_type_of))]
fn filtering(sampler: u32) -> bool
    ensures { result ≡ filtering (binding_type_of sampler 0) }
{
    sampler % 0x800_0000 == 0x80_0000
}

// What filtering asks of a texture's type word: 32 for a float that is not filterable, 33 for an integer.
#[tactic(auto, unfolding(word::specs::Choice::yes))]
fn sample_use(texture: u32) -> Result<(), Number>
    ensures { number_or_none result ≡ sample_number (sample_at (bits 6 4 texture)) }
{
    match texture / 16 % 8 {
        0 | 2 => Ok(()),
        1 => Err(Number::FilteringFloat),
        _ => Err(Number::FilteringInteger),
    }
}

// The type words of a texture's entry and of a sampler's entry: 34 where the first is no texture.
#[tactic(auto, unfolding(crate::specs::Resources::pair_number, bindings::specs::Format::binding_type_of))]
fn types_use(texture: u32, sampler: u32) -> Result<(), Number>
    ensures { number_or_none result ≡ pair_number (binding_type_of texture 0) (binding_type_of sampler 0) }
{
    match texture / 0x80_0000 % 16 {
        2 => {
            if !filtering(sampler) {
                return Ok(());
            }
            sample_use(texture)
        }
        5 => Ok(()),
        _ => Err(Number::PairNoTexture),
    }
}

// The type word of the entry at a word's place, tried at a position first; where there is none, one that is no texture and no sampler, as in the definition.
#[tactic(auto, unfolding(bindings::specs::Format::binding_type_of))]
fn type_word_at(layout: &LayoutList<'_>, place: u32, near: usize) -> u32
    ensures { WordMeans result (type_at (decode_layout layout.now.words.now) (place_of place)) }
{
    match layout.find_entry_near(place, near) {
        Some(index) => layout.entry_type(index),
        None => 0x9300_0000,
    }
}

// The refusal of a number that names the places of two words.
fn pair_refusal(number: Number, texture: u32, sampler: u32) -> Refusal
    ensures { refusal_answer result ≡ pair_answer (number_of number) (place_of texture) (place_of sampler) }
{
    Refusal::new(
        number,
        0x2000_0000 + content(texture),
        0x2000_0000 + content(sampler),
        0,
    )
}

// The entries at a texture's and a sampler's place, each tried at a position first.
fn places_use(
    layout: &LayoutList<'_>,
    texture: u32,
    sampler: u32,
    texture_near: usize,
    sampler_near: usize,
) -> Result<(), Refusal>
    ensures { answer_of result ≡ pair_answer
        (pair_number (type_at (decode_layout layout.now.words.now) (place_of texture)) (type_at (decode_layout layout.now.words.now) (place_of sampler)))
        (place_of texture) (place_of sampler) }
{
    let texture_type = type_word_at(layout, texture, texture_near);
    let sampler_type = type_word_at(layout, sampler, sampler_near);
    types_use(texture_type, sampler_type).map_err(|number| pair_refusal(number, texture, sampler))
}

// A texture with the sampler it is sampled with, by the word of the pair.
#[tactic(auto, unfolding(crate::specs::Resources::pair_use))]
fn pair_use(
    layout: &LayoutList<'_>,
    resources: &ResourceTable,
    entries: &[u8; 128],
    w: u32,
) -> Result<(), Refusal>
    requires { pair_below (length resources.now) (pair_of w) ≡ true }
    ensures { answer_of result ≡ pair_use (decode_layout layout.now.words.now) resources.now (pair_of w) }
{
    let pair = pair_of(w);
    places_use(
        layout,
        resources.place(pair.texture),
        resources.place(pair.sampler),
        noted(entries, pair.texture),
        noted(entries, pair.sampler),
    )
}

// Each pair of the entry point in pack order, up to the first that is refused.
pub fn pair_uses(
    layout: &LayoutList<'_>,
    resources: &ResourceTable,
    entries: &[u8; 128],
    pairs: &[u32],
) -> Result<(), Refusal>
    requires { pairs_below (length resources.now) (pairs_of pairs.now) ≡ true }
    ensures { answer_of result ≡ pair_uses (decode_layout layout.now.words.now) resources.now (pairs_of pairs.now) }
{
    for w in pairs {
        pair_use(layout, resources, entries, *w)?;
    }
    Ok(())
}
