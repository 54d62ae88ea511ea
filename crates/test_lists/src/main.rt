// Does what a case of standard input asks of a list, and prints the answer and the words of the list that changed, a line for each case.
// Input is words, low byte first: how many cases; then for each what is asked, four arguments, how many words the list has, and the list.
// Asked is 0 whether it is a layout, a size or a stage list; of a layout 1 to look, 2 to join a stage, 3 to push an entry; 4 to record a
// size; of a stage list 5 to look, 6 to begin a list out, 7 to insert a variable. The last argument of 1, 4 and 5 is a position to try first.
// Input and stored output are from tools/lists_expected.py, a model of document 01's text.
#![tactic(auto)]

use layouts::layout::layout_well_formed;
use sizes::sizes::sizes_well_formed;
use stage_lists::stage_io::stage_well_formed;
use std::io;
use std::io::Read;
use test_text::read;

mod on_layouts;
mod on_sizes;
mod on_stages;
mod print;

// What is asked of a list.
#[derive(Clone, Copy)]
enum Asked {
    Kinds,
    LookLayout { place: u32, near: u32 },
    Join { place: u32, stage: u32 },
    Push { entry: [u32; 4] },
    Record { place: u32, size: u32, near: u32 },
    LookStage { location: u32, near: u32 },
    Begin { code: u32, payload: u32 },
    Insert { location: u32, var: u32 },
}

// What a case's words ask: its number and four arguments.
impl From<[u32; 5]> for Asked {
    fn from(words: [u32; 5]) -> Asked {
        let [asked, a, b, c, d] = words;
        match asked {
            0 => Asked::Kinds,
            1 => Asked::LookLayout { place: a, near: b },
            2 => Asked::Join { place: a, stage: b },
            3 => Asked::Push {
                entry: [a, b, c, d],
            },
            4 => Asked::Record {
                place: a,
                size: b,
                near: c,
            },
            5 => Asked::LookStage {
                location: a,
                near: b,
            },
            6 => Asked::Begin {
                code: a,
                payload: b,
            },
            _ => Asked::Insert {
                location: a,
                var: b,
            },
        }
    }
}

// Which of the three lists the words are.
fn kinds(rt: &impl Print, list: &[u32]) -> io::Result<()> {
    print::yes_no(rt, layout_well_formed(list))?;
    print::yes_no(rt, sizes_well_formed(list))?;
    print::yes_no(rt, stage_well_formed(list))
}

fn answer(rt: &impl Print, list: &mut [u32], asked: Asked) -> io::Result<()> {
    match asked {
        Asked::Kinds => kinds(rt, list),
        Asked::LookLayout { place, near } => on_layouts::look(rt, list, place, near),
        Asked::Join { place, stage } => on_layouts::join(rt, list, place, stage),
        Asked::Push { entry } => on_layouts::push(rt, list, entry),
        Asked::Record { place, size, near } => on_sizes::record(rt, list, place, size, near),
        Asked::LookStage { location, near } => on_stages::look(rt, list, location, near),
        Asked::Begin { code, payload } => on_stages::begin(rt, list, code, payload),
        Asked::Insert { location, var } => on_stages::insert(rt, list, location, var),
    }
}

fn case(rt: &impl Print, input: &mut impl Read) -> io::Result<()> {
    let asked = Asked::from(read::array::<5>(input)?);
    let count = read::next(input)?;
    let mut list = read::words::<1032>(input, count)?;
    let old = list.clone().unwrap();
    answer(rt, &mut list, asked)?;
    test_text::print::changes(rt, &old, &list, "", " ")?;
    println!(rt)
}

fn main(rt: HostRuntime) -> io::Result<()> {
    let mut input = rt.stdin();
    for _ in 0..read::next(&mut input)? {
        case(&rt, &mut input)?;
    }
    Ok(())
}
