// The resources of an entry point against a layout that is being derived: each gets an entry, or joins the one at its place.
// The layout is lent for writing, so that it is well formed stays a clause (layouts, at `push_entry`).
ghost use Rattle.std.specs.Prelude.{◌≡◌, true, ◌&&◌, eqb, ◌<◌, length};
ghost use Rattle.word.specs.Refusals.{answer_of};
ghost use Rattle.bindings.specs.Rules.{same_binding};
ghost use Rattle.bindings.specs.Format.{place_of, type_code, resource, binding_type_of};
ghost use Rattle.layouts.specs.Meaning.{find_entry, entry_nth};
ghost use Rattle.layouts.specs.Format.{layout_well_formed, decode_layout};
ghost use Rattle.interface.specs.Format.{contents, pairs_of};
ghost use Rattle.resource_steps.specs.Inner.Given.{each_below};
ghost use Rattle.resource_steps.specs.Inner.Stops.{stopped_answer, stopped_passed};
ghost use Rattle.resource_steps.specs.Resources.{resource_nth, layout_after, occupied, vacant, place_step, derive_step, named_texture, derive_result, derive_steps};

use crate::resources::place_refusal;
use crate::table::Resources;
use crate::types::{EntryType, ResourceWords, Stopped};
use interface::types::ShaderStage;
use layouts::layout::{LayoutList, group_count, join_visibility, push_entry};
use layouts::visibility::stage_bit;
use word::content;
use word::refusal::{Number, Refusal};
use word_rules::derives::{derived_least, derived_word};

// Whether the entry at a position is of a type.
fn same_type(layout: &LayoutList<'_>, index: usize, ty: EntryType) -> bool
    requires { index < length (decode_layout layout.now.words.now).entries }
    ensures { result ≡ same_binding (binding_type_of ty.word ty.least) (entry_nth (decode_layout layout.now.words.now).entries index).ty }
{
    layout.entry_type(index) == ty.word && layout.entry_least(index) == ty.least
}

// A place that has an entry: of the same type it gains the stage's bit, else 29.
#[tactic(auto, unfolding(crate::specs::Resources::occupied))]
fn occupied(
    stage: ShaderStage,
    place: u32,
    ty: EntryType,
    index: usize,
    layout: &mut [u32],
) -> Result<(), Refusal>
    requires well_formed { layout_well_formed layout.old ≡ true }
    requires index_in_bounds { index < length (decode_layout layout.old).entries }
    ensures layout_after { layout_after (answer_of result) (decode_layout layout.new)
        ≡ occupied stage (place_of place) (binding_type_of ty.word ty.least) index (decode_layout layout.old) }
    ensures well_formed_after { layout_well_formed layout.new ≡ true }
{
    if !same_type(&LayoutList { words: &*layout }, index, ty) {
        return Err(place_refusal(Number::InconsistentlyDerivedType, place));
    }
    join_visibility(layout, index, stage);
    Ok(())
}

// A place that has no entry gets one; a list without room is 5.
#[tactic(auto, unfolding(crate::specs::Resources::vacant))]
fn vacant(stage: ShaderStage, place: u32, ty: EntryType, layout: &mut [u32]) -> Result<(), Refusal>
    requires well_formed { layout_well_formed layout.old ≡ true }
    requires group_in_bounds { (place_of place).group < (decode_layout layout.old).groups }
    requires place_free { find_entry (place_of place) (decode_layout layout.old) ≡ None }
    ensures layout_after { layout_after (answer_of result) (decode_layout layout.new)
        ≡ vacant stage (place_of place) (binding_type_of ty.word ty.least) (decode_layout layout.old) }
    ensures well_formed_after { layout_well_formed layout.new ≡ true }
{
    let visibility = 0x9800_0000 + stage_bit(stage);
    let pushed = push_entry(
        layout,
        0x2000_0000 + content(place),
        ty.word,
        ty.least,
        visibility,
    );
    if !pushed {
        return Err(place_refusal(Number::FullList, place));
    }
    Ok(())
}

// A derived type at its place.
fn place_step(
    stage: ShaderStage,
    place: u32,
    ty: EntryType,
    layout: &mut [u32],
) -> Result<(), Refusal>
    requires well_formed { layout_well_formed layout.old ≡ true }
    requires group_in_bounds { (place_of place).group < (decode_layout layout.old).groups }
    ensures layout_after { layout_after (answer_of result) (decode_layout layout.new)
        ≡ place_step stage (place_of place) (binding_type_of ty.word ty.least)
        (find_entry (place_of place) (decode_layout layout.old)) (decode_layout layout.old) }
    ensures well_formed_after { layout_well_formed layout.new ≡ true }
{
    let found = LayoutList { words: &*layout }.find_entry_word(place);
    match found {
        Some(index) => occupied(stage, place, ty, index, layout),
        None => vacant(stage, place, ty, layout),
    }
}

// A resource against a layout that is being derived: 20 where the layout has no such group, 24 where no type can be derived.
#[tactic(auto, unfolding(crate::specs::Resources::derive_step))]
fn derive_step(
    stage: ShaderStage,
    named: bool,
    words: ResourceWords,
    layout: &mut [u32],
) -> Result<(), Refusal>
    requires well_formed { layout_well_formed layout.old ≡ true }
    ensures layout_after { layout_after (answer_of result) (decode_layout layout.new)
        ≡ derive_step stage named (resource words.place words.ty words.size) (decode_layout layout.old) }
    ensures well_formed_after { layout_well_formed layout.new ≡ true }
{
    let place = words.place;
    if group_count(layout) <= place / 0x80_0000 % 16 {
        return Err(place_refusal(Number::Missing, place));
    }
    match derived_word(words.ty, named) {
        Ok(word) => {
            let least = derived_least(words.ty, words.size);
            place_step(stage, place, EntryType { word, least }, layout)
        }
        Err(error) => Err(place_refusal(error.into(), place)),
    }
}

// Whether some pair names an index as its texture.
fn named_texture(pairs: &[u32], texture: u32) -> bool
    ensures { result ≡ named_texture texture (pairs_of pairs.now) }
{
    // not `any`: its functions hand on pairs with a pointer, which tools/board/build refuses
    for w in pairs {
        if *w / 256 % 256 == texture {
            return true;
        }
    }
    false
}

// The same for a sampled texture alone: no other resource derives by its name.
fn named_sampled(pairs: &[u32], ty: u32, texture: u32) -> bool
    ensures { result ≡ (eqb (type_code ty) 2 && named_texture texture (pairs_of pairs.now)) }
{
    ty / 0x80_0000 % 16 == 2 && named_texture(pairs, texture)
}

// One resource of the entry point, by its index.
fn derive_resource(
    resources: &Resources<'_>,
    i: u32,
    pairs: &[u32],
    stage: ShaderStage,
    layout: &mut [u32],
) -> Result<(), Refusal>
    requires well_formed { layout_well_formed layout.old ≡ true }
    requires i_in_bounds { i < length resources.now.table }
    ensures layout_after { layout_after (answer_of result) (decode_layout layout.new)
        ≡ derive_step stage (named_texture i (pairs_of pairs.now)) (resource_nth resources.now.table i) (decode_layout layout.old) }
    ensures well_formed_after { layout_well_formed layout.new ≡ true }
{
    let words = resources.words(i);
    let named = named_sampled(pairs, words.ty, i);
    derive_step(stage, named, words, layout)
}

// Each resource of the entry point in list order, up to the first that is refused.
pub fn derive_steps(
    resources: &Resources<'_>,
    listed: &[u32],
    pairs: &[u32],
    stage: ShaderStage,
    layout: &mut [u32],
) -> Result<(), Stopped>
    requires well_formed { layout_well_formed layout.old ≡ true }
    requires listed_below { each_below (length resources.now.table) (contents listed.now) ≡ true }
    ensures layout_after { derive_result (stopped_answer result) (stopped_passed (length listed.now) result) (decode_layout layout.new)
        ≡ derive_steps stage resources.now.table (pairs_of pairs.now) (contents listed.now) (decode_layout layout.old) }
    ensures well_formed_after { layout_well_formed layout.new ≡ true }
{
    for (passed, w) in listed.iter().enumerate() {
        if let Err(refusal) = derive_resource(resources, content(*w), pairs, stage, layout) {
            return Err(Stopped { refusal, passed });
        }
    }
    Ok(())
}
