// What is asked of layout lists.
use crate::print;
use bindings::binding_codes::{binding_code, least_size};
use bindings::entry_words::{binding_type_of, words_well_formed};
use bindings::resource_words::place_of;
use bindings::sizes::word_size;
use bindings::types::BindGroupLayoutEntry;
use interface::reads::stage_at;
use layouts::layout::{LayoutList, group_count, join_visibility, layout_well_formed, push_entry};
use layouts::visibility::sees;
use places::heads::counted;
use std::io;

// An entry: its place, type and least size, and whether each stage sees it.
fn show(rt: &impl Print, e: BindGroupLayoutEntry) -> io::Result<()> {
    let bind = e.bind;
    let ty = e.ty;
    print::number(rt, bind.group as u64)?;
    print::number(rt, bind.binding as u64)?;
    print::number(rt, binding_code(ty))?;
    print::number(rt, least_size(ty))?;
    for stage in 0..5 {
        print::yes_no(rt, sees(e.visibility, stage_at(stage)))?;
    }
    Ok(())
}

fn position(rt: &impl Print, found: Option<usize>) -> io::Result<()> {
    match found {
        Some(index) => print::number(rt, index as u64),
        None => print::nothing(rt),
    }
}

// The entry at a position, part by part.
fn show_at(rt: &impl Print, l: &LayoutList<'_>, index: usize) -> io::Result<()> {
    if counted(l.words) <= index {
        return print::nothing(rt);
    }
    let bind = place_of(l.entry_place(index));
    let ty = binding_type_of(l.entry_type(index), l.entry_least(index));
    show(
        rt,
        BindGroupLayoutEntry {
            bind,
            ty,
            visibility: l.entry_visibility(index),
        },
    )
}

// The groups, the position of a place, sought at another first, and the entry at that one.
pub(crate) fn look(rt: &impl Print, l: &[u32], place: u32, index: u32) -> io::Result<()> {
    if !layout_well_formed(l) {
        return print::nothing(rt);
    }
    print::number(rt, group_count(l) as u64)?;
    let layout = LayoutList { words: l };
    position(rt, layout.find_entry_near(place, index as usize))?;
    show_at(rt, &layout, index as usize)
}

// A stage joined to the entry at a place.
pub(crate) fn join(rt: &impl Print, l: &mut [u32], place: u32, stage: u32) -> io::Result<()> {
    if !layout_well_formed(l) || 4 < stage {
        return print::nothing(rt);
    }
    let found = LayoutList { words: &*l }.find_entry_word(place);
    match found {
        Some(index) => {
            join_visibility(l, index, stage_at(stage));
            print::number(rt, index as u64)
        }
        None => print::nothing(rt),
    }
}

// A new entry, where the words are one, its group is one of the list's and no entry has its place; then whether there was room.
pub(crate) fn push(rt: &impl Print, l: &mut [u32], entry: [u32; 4]) -> io::Result<()> {
    let [place, ty, least, visibility] = entry;
    if !layout_well_formed(l) || !words_well_formed(place, ty, least, visibility) {
        return print::nothing(rt);
    }
    if group_count(l) <= place / 0x80_0000 % 16 {
        return print::nothing(rt);
    }
    let found = LayoutList { words: &*l }.find_entry_word(place);
    match found {
        Some(_) => print::nothing(rt),
        None => { print::yes_no(rt, push_entry(l, place, ty, word_size(least), visibility)) }
    }
}
