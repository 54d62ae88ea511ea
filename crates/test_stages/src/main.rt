// Runs recorded calls and prints an answer a line, to be held to what the Rust answered; oracle/README.md says how both files are made.
// Input is how many cases, then for each twelve words, low byte first: the sort (0 a stage check, 1 a choice without a name), the lengths of
// pack, layout, sizes, inputs, list out and name, then stage, topology, mode, dual source and depth; and behind them the lists and the name.
// A line has number and three details, and for a stage check what changed in layout, sizes and list out, as position:word.
#![tactic(auto)]

use entry_points::choose::finalize_entry_point_name;
use stage::check::check_stage;
use stage::types::Codes;
use std::io;
use std::io::Read;
use test_text::{print, read};
use word::answer::Answer;

// Words for the longest lent list, a little past what document 01 takes.
const MOST: usize = 1040;

// Words for the longest pack, likewise.
const PACK: usize = 4200;

// What changed in a list.
fn changes(rt: &impl Print, before: &[u32], after: &[u32]) -> io::Result<()> {
    print!(rt; " ;")?;
    print::changes(rt, before, after, " ", "")
}

// Reads the lists and the name of a stage check; prints its answer, and what it changed.
fn stage_case(
    rt: &impl Print,
    input: &mut impl Read,
    pack: &[u32],
    lengths: [u32; 5],
    codes: Codes,
) -> io::Result<()> {
    let [layout, sizes, inputs, out, name] = lengths;
    let mut layout = read::words::<MOST>(input, layout)?;
    let mut sizes = read::words::<MOST>(input, sizes)?;
    let inputs = read::words::<MOST>(input, inputs)?;
    let mut out = read::words::<MOST>(input, out)?;
    let name = read::bytes::<128>(input, name)?;
    let old_layout = layout.clone().unwrap();
    let old_sizes = sizes.clone().unwrap();
    let old_out = out.clone().unwrap();
    let outcome = check_stage(
        pack,
        &mut layout,
        &mut sizes,
        &inputs,
        &mut out,
        &name,
        codes,
    );
    print::answer(rt, Answer::from(outcome))?;
    changes(rt, &old_layout, &layout)?;
    changes(rt, &old_sizes, &sizes)?;
    changes(rt, &old_out, &out)
}

fn case(rt: &impl Print, input: &mut impl Read) -> io::Result<()> {
    let [
        sort,
        pack,
        layout,
        sizes,
        inputs,
        out,
        name,
        stage,
        topology,
        mode,
        dual_source,
        depth,
    ] = read::array::<12>(input)?;
    let pack = read::words::<PACK>(input, pack)?;
    match sort {
        0 => {
            let codes = Codes {
                stage,
                topology,
                mode,
                dual_source,
                depth,
            };
            stage_case(rt, input, &pack, [layout, sizes, inputs, out, name], codes)?;
        }
        _ => print::answer(rt, Answer::from(finalize_entry_point_name(&pack, stage)))?,
    }
    println!(rt)
}

fn main(rt: HostRuntime) -> io::Result<()> {
    let mut input = rt.stdin();
    for _ in 0..read::next(&mut input)? {
        case(&rt, &mut input)?;
    }
    Ok(())
}
