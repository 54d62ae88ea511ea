// Prints the answers on formats and types, a line each in decimal: what was asked, the number, and the first detail where there is one.
// The stored output is from the original Rust, by oracle/ on its cases vertex, texture, subtype and format in the order printed here, details in decimal.
// The Rust has no answer 82 and panics at 80: there the oracle gives document 01's number.
#![tactic(auto)]

use formats::formats::{check_texture_format, texture_format, vertex_format};
use numeric::type_words::{is_subtype_of, subtype_number};
use std::io;
use word::answer::Answer;

// Lone type words: scalars, vectors, matrices, and five that are no type (shape 13, width 3, bit 12, bit 26, kind 12).
const TYPES: [u32; 24] = [
    0x6800_0100,
    0x6800_0110,
    0x6800_0120,
    0x6800_0070,
    0x6800_00a0,
    0x6800_0210,
    0x6800_0220,
    0x6800_0121,
    0x6800_0122,
    0x6800_0123,
    0x6800_0111,
    0x6800_0113,
    0x6800_0103,
    0x6800_0222,
    0x6800_0124,
    0x6800_0125,
    0x6800_0127,
    0x6800_012c,
    0x6800_0225,
    0x6800_012d,
    0x6800_00e0,
    0x6800_1120,
    0x6c00_0120,
    0x6000_0120,
];

fn vertex_formats(rt: &impl Print) -> io::Result<()> {
    for code in 0..50 {
        let Answer { number, first, .. } = Answer::from(vertex_format(code));
        println!(rt; "{code} {number} {first}")?;
    }
    Ok(())
}

fn texture_formats(rt: &impl Print) -> io::Result<()> {
    for code in 0..81 {
        let Answer { number, first, .. } = Answer::from(texture_format(code));
        println!(rt; "{code} {number} {first}")?;
    }
    Ok(())
}

// A type below each type of the table.
fn below_each(rt: &impl Print, a: u32) -> io::Result<()> {
    for b in TYPES {
        let number = subtype_number(is_subtype_of(a, b));
        println!(rt; "{a} {b} {number}")?;
    }
    Ok(())
}

fn subtypes(rt: &impl Print) -> io::Result<()> {
    for a in TYPES {
        below_each(rt, a)?;
    }
    Ok(())
}

// A texture format covered by each type of the table.
fn covered_by_each(rt: &impl Print, code: u32) -> io::Result<()> {
    for output in TYPES {
        let Answer { number, first, .. } = Answer::from(check_texture_format(code, output));
        println!(rt; "{code} {output} {number} {first}")?;
    }
    Ok(())
}

// Every seventh code meets each kind of format: 49 has no colour type and 77 is unknown.
fn covered_formats(rt: &impl Print) -> io::Result<()> {
    for code in (0..84).step_by(7) {
        covered_by_each(rt, code)?;
    }
    Ok(())
}

fn main(rt: HostRuntime) -> io::Result<()> {
    vertex_formats(&rt)?;
    texture_formats(&rt)?;
    subtypes(&rt)?;
    covered_formats(&rt)
}
