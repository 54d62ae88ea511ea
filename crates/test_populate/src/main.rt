// Makes recorded calls of `populate_types` and prints an answer a line, to be held to what the Rust answered; oracle/README.md has the form
// of both, `populate TYPES ASKED BINDING OUT` and `NUMBER D1 D2 D3 OUT`, and says how they are made.
// A line that is no such case, or has more than there is space for, is answered `bad`.
#![tactic(auto)]

use crate::case::{Case, read};
use arrayvec::ArrayVec;
use populate::call::populate_types;
use std::io;
use std::io::Read;
use word::answer::Answer;

mod case;

// Room for the longest line; three of the longest lists fit.
type Line = ArrayVec<u8, 0x8000>;

// The words of a list, joined by commas.
fn words(rt: &impl Print, list: &[u32]) -> io::Result<()> {
    let Some((first, others)) = list.split_first() else {
        return print!(rt; "-");
    };
    print!(rt; "{first:x}")?;
    for w in others {
        print!(rt; ",{w:x}")?;
    }
    Ok(())
}

// The answer, and the list out as the call left it.
fn answer(rt: &impl Print, case: Case) -> io::Result<()> {
    let Case {
        types,
        asked,
        binding,
        mut out,
    } = case;
    let Answer {
        number,
        first,
        second,
        third,
    } = Answer::from(populate_types(&types, asked, &binding, &mut out));
    print!(rt; "{number} {first:x} {second:x} {third:x} ")?;
    words(rt, &out)?;
    println!(rt)
}

// Where the line fills the space, it may have had more bytes.
fn on_line(rt: &impl Print, line: &Line) -> io::Result<()> {
    if line.is_full() {
        return println!(rt; "bad");
    }
    match read(line.as_slice()) {
        Some(case) => answer(rt, case),
        None => println!(rt; "bad"),
    }
}

// A line ends at a newline, at a byte 0 or at the end of the input; an empty one that no newline ends is the last.
fn main(rt: HostRuntime) -> io::Result<()> {
    let mut line = Line::new();
    for byte in rt.stdin().bytes() {
        match byte? {
            0 if line.is_empty() => return Ok(()),
            0 | b'\n' => {
                on_line(&rt, &line)?;
                line.clear();
            }
            b if !line.is_full() => line.push(b),
            _ => {}
        }
    }
    if line.is_empty() {
        return Ok(());
    }
    on_line(&rt, &line)
}
