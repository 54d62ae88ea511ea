// What is asked of stage lists and of the list out.
ghost use Rattle.std.specs.Prelude.{◌≡◌};
ghost use Rattle.test_lists.specs.Room.{has_room};

use crate::print;
use numeric::type_words::type_word;
use places::heads::counted;
use stage_lists::list_out::{begin_out, insert_words};
use stage_lists::stage_io::{
    StageList, out_well_formed, payload, primitive_index, stage_well_formed,
};
use std::io;
use varying::{InterfaceVar, payload_of, payload_well_formed, var_of, var_well_formed};
use word::word;

fn show_variable(rt: &impl Print, v: InterfaceVar) -> io::Result<()> {
    let ty = v.ty;
    print::number(rt, type_word(ty) as u64)?;
    print::number(rt, v.interpolation as u64)?;
    print::number(rt, v.sampling as u64)?;
    print::yes_no(rt, v.per_primitive)
}

// The variable whose word was found at a position.
fn show_found(rt: &impl Print, l: &[u32], found: Option<usize>) -> io::Result<()> {
    match found {
        Some(index) => show_variable(rt, var_of(word(l, index))),
        None => print::nothing(rt),
    }
}

fn show_primitive(rt: &impl Print, p: Option<bool>) -> io::Result<()> {
    match p {
        None => print::nothing(rt),
        Some(written) => print::yes_no(rt, written),
    }
}

fn show_payload(rt: &impl Print, p: Option<u32>) -> io::Result<()> {
    match p {
        None => print::nothing(rt),
        Some(bytes) => print::number(rt, bytes as u64),
    }
}

// The primitive index, the payload and the variable at a location, sought at a position first.
pub(crate) fn look(rt: &impl Print, l: &[u32], location: u32, near: u32) -> io::Result<()> {
    if !stage_well_formed(l) {
        return print::nothing(rt);
    }
    show_primitive(rt, primitive_index(l))?;
    show_payload(rt, payload(l))?;
    show_found(
        rt,
        l,
        StageList { words: l }.find_location(location, near as usize),
    )
}

fn primitive_of(code: u32) -> Option<bool> {
    match code {
        0 => None,
        1 => Some(false),
        _ => Some(true),
    }
}

// A list out begun with a primitive index and a payload's word, where it has two words.
pub(crate) fn begin(rt: &impl Print, l: &mut [u32], code: u32, payload: u32) -> io::Result<()> {
    if l.len() < 2 || !payload_well_formed(payload) {
        return print::nothing(rt);
    }
    begin_out(l, primitive_of(code), payload_of(payload));
    print::yes_no(rt, true)
}

// Whether words are a list out that has less than 63 variables and room for another.
fn has_room(l: &[u32]) -> bool
    ensures { result ≡ has_room l.now }
{
    if !out_well_formed(l) {
        return false;
    }
    let n = counted(l);
    n < 63 && 2 + 2 * n + 2 <= l.len()
}

// A variable's word put into a list out at a location.
pub(crate) fn insert(rt: &impl Print, l: &mut [u32], location: u32, var: u32) -> io::Result<()> {
    if !has_room(l) || 0x800_0000 <= location || !var_well_formed(var) {
        return print::nothing(rt);
    }
    let head = l[0];
    l[0] = insert_words(l, head, 0x6000_0000 + location, var);
    print::yes_no(rt, true)
}
