// The resources of an entry point against a provided layout: their sizes recorded, and each served by its entry.
// The sizes are lent for writing, so that they are well formed stays a clause (layouts, at `push_entry`).
ghost use Rattle.std.specs.Prelude.{◌≡◌, true, ◌<◌, length};
ghost use Rattle.word.specs.Refusals.{answer_of, number_or_none};
ghost use Rattle.bindings.specs.Format.{place_of, resource_type_of, resource};
ghost use Rattle.layouts.specs.Meaning.{find_entry, entry_nth};
ghost use Rattle.layouts.specs.Format.{decode_layout};
ghost use Rattle.sizes.specs.Format.{sizes_well_formed, decode_sizes};
ghost use Rattle.interface.specs.Format.{contents};
ghost use Rattle.resource_steps.specs.Inner.Given.{each_below};
ghost use Rattle.resource_steps.specs.Inner.Notes.{note_at, step_notes, provide_notes};
ghost use Rattle.resource_steps.specs.Inner.Stops.{stopped_answer, stopped_passed};
ghost use Rattle.resource_steps.specs.Resources.{resource_nth, sizes_after, record_size, entry_use, provided_use, provide_step, provide_result, provide_steps};

use crate::resources::{note, noted, place_refusal};
use crate::table::Resources;
use crate::types::{ResourceWords, Stopped};
use interface::types::ShaderStage;
use layouts::layout::LayoutList;
use layouts::visibility::sees;
use sizes::sizes::record_size;
use word::content;
use word::refusal::{Number, Refusal};
use word_rules::uses::words_use;

// Records the size that a buffer asks for; a list without room is 5.
#[tactic(auto, unfolding(crate::specs::Resources::record_size, bindings::specs::Format::resource_type_of))]
fn record_buffer(words: ResourceWords, next: &mut usize, sizes: &mut [u32]) -> Result<(), Refusal>
    requires well_formed { sizes_well_formed sizes.old ≡ true }
    ensures sizes_after { sizes_after (answer_of result) (decode_sizes sizes.new)
        ≡ record_size (place_of words.place) (resource_type_of words.ty words.size) (decode_sizes sizes.old) }
    ensures well_formed_after { sizes_well_formed sizes.new ≡ true }
{
    if words.ty / 0x80_0000 % 16 != 0 {
        return Ok(());
    }
    let place = 0x2000_0000 + content(words.place);
    if !record_size(sizes, place, words.size, next) {
        return Err(place_refusal(Number::FullList, words.place));
    }
    Ok(())
}

// Whether the entry at a position serves a resource: 21 where the stage does not see it.
fn entry_use(
    stage: ShaderStage,
    words: ResourceWords,
    layout: &LayoutList<'_>,
    index: usize,
) -> Result<(), Number>
    requires { index < length (decode_layout layout.now.words.now).entries }
    ensures { number_or_none result
        ≡ entry_use stage (resource_type_of words.ty words.size) (entry_nth (decode_layout layout.now.words.now).entries index) }
{
    if !sees(layout.entry_visibility(index), stage) {
        return Err(Number::Invisible);
    }
    let ty = layout.entry_type(index);
    let least = layout.entry_least(index);
    words_use(words.ty, words.size, ty, least)?;
    Ok(())
}

// Whether a provided layout serves a resource: its entry is tried at a position first, and noted where it stands; 20 where there is none.
#[tactic(auto, unfolding(crate::specs::Resources::provided_use))]
fn provided_use(
    stage: ShaderStage,
    layout: &LayoutList<'_>,
    i: u32,
    near: usize,
    entries: &mut [u8; 128],
    words: ResourceWords,
) -> Result<(), Refusal>
    ensures meaning { answer_of result
        ≡ provided_use stage (decode_layout layout.now.words.now) (resource words.place words.ty words.size) }
    ensures entries_after { entries.new ≡ note_at i (find_entry (place_of words.place) (decode_layout layout.now.words.now)) entries.old }
{
    let place = words.place;
    let found = layout.find_entry_near(place, near);
    note(entries, i, found);
    let Some(index) = found else {
        return Err(place_refusal(Number::Missing, place));
    };
    entry_use(stage, words, layout, index).map_err(|number| place_refusal(number, place))
}

// One resource of the entry point, by its index: its size recorded, then its use judged.
#[tactic(auto, unfolding(crate::specs::Resources::provide_step, crate::specs::Inner::Notes::step_notes))]
fn provide_step(
    resources: &Resources<'_>,
    i: u32,
    near: usize,
    stage: ShaderStage,
    entries: &mut [u8; 128],
    next: &mut usize,
    layout: &LayoutList<'_>,
    sizes: &mut [u32],
) -> Result<(), Refusal>
    requires well_formed { sizes_well_formed sizes.old ≡ true }
    requires i_in_bounds { i < length resources.now.table }
    ensures sizes_after { sizes_after (answer_of result) (decode_sizes sizes.new)
        ≡ provide_step stage (decode_layout layout.now.words.now) (resource_nth resources.now.table i) (decode_sizes sizes.old) }
    ensures well_formed_after { sizes_well_formed sizes.new ≡ true }
    ensures entries_after { entries.new
        ≡ step_notes (decode_layout layout.now.words.now) (resource_nth resources.now.table i) i (decode_sizes sizes.old) entries.old }
{
    let words = resources.words(i);
    record_buffer(words, next, sizes)?;
    provided_use(stage, layout, i, near, entries, words)
}

// Each resource of the entry point in list order, up to the first that is refused. Entries and sizes mostly stand in the same order.
pub fn provide_steps(
    resources: &Resources<'_>,
    listed: &[u32],
    stage: ShaderStage,
    entries: &mut [u8; 128],
    layout: &LayoutList<'_>,
    sizes: &mut [u32],
) -> Result<(), Stopped>
    requires well_formed { sizes_well_formed sizes.old ≡ true }
    requires listed_below { each_below (length resources.now.table) (contents listed.now) ≡ true }
    ensures sizes_after { provide_result (stopped_answer result) (stopped_passed (length listed.now) result) (decode_sizes sizes.new)
        ≡ provide_steps stage (decode_layout layout.now.words.now) resources.now.table (contents listed.now) (decode_sizes sizes.old) }
    ensures well_formed_after { sizes_well_formed sizes.new ≡ true }
    ensures entries_after { entries.new
        ≡ provide_notes stage (decode_layout layout.now.words.now) resources.now.table (contents listed.now) (decode_sizes sizes.old) entries.old }
{
    let mut near: usize = 0;
    let mut next = 0;
    for (passed, w) in listed.iter().enumerate() {
        let i = content(*w);
        if let Err(refusal) = provide_step(
            resources, i, near, stage, entries, &mut next, layout, sizes,
        ) {
            return Err(Stopped { refusal, passed });
        }
        near = noted(entries, i) + 1;
    }
    Ok(())
}
