// What a board's firmware links: the checks over plain numbers and slices, under names that begin with the product's.
#![tactic(auto)]

ghost use Rattle.std.specs.Prelude.{◌≡◌};
ghost use Rattle.formats.specs.Formats.{vertex_format, texture_format, format_answer, check_texture_format};
ghost use Rattle.numeric.specs.TypeWords.{read_type, compare_types, subtype_number};
ghost use Rattle.interface.specs.Format.{decode};
ghost use Rattle.entry_points.specs.Rules.{finalize_name};
ghost use Rattle.populate.specs.Populate.{populate_call};
ghost use Rattle.stage.specs.Stage.{check_stage};
ghost use Rattle.stage.specs.Meaning.{call, codes, lent};
ghost use Rattle.bokwingi.specs.Details.{Handed};

use entry_points::choose::finalize_entry_point_name;
use formats::formats::{check_texture_format, texture_format, vertex_format};
use numeric::type_words::{is_subtype_of, subtype_number};
use populate::call::populate_types;
use stage::check::check_stage;
use stage::types::Codes;
use word::answer::Answer;

// Hands an answer's details out, as many as there is room for, and its number back. A loop over the three is no shorter and takes 19 instructions
// more on x86-64.
fn hand_out(a: Answer, details: &mut [u32]) -> u32
    ensures { Handed a result details.old details.new }
{
    if details.len() == 0 {
        return a.number;
    }
    details[0] = a.first;
    if details.len() == 1 {
        return a.number;
    }
    details[1] = a.second;
    if details.len() == 2 {
        return a.number;
    }
    details[2] = a.third;
    a.number
}

// Checks one stage of a pipeline.
#[unsafe(no_mangle)]
pub extern "C" fn bokwingi_check_stage(
    pack: &[u32],
    layout: &mut [u32],
    sizes: &mut [u32],
    inputs: &[u32],
    out: &mut [u32],
    name: &[u8],
    stage: u32,
    topology: u32,
    mode: u32,
    dual_source: u32,
    depth: u32,
    details: &mut [u32],
) -> u32
    ensures handed { Handed (check_stage (call pack.now name.now (codes stage topology mode dual_source depth)
        (lent layout.old sizes.old inputs.now out.old))).answer result details.old details.new }
    ensures layout_after { layout.new ≡ (check_stage (call pack.now name.now (codes stage topology mode dual_source depth)
        (lent layout.old sizes.old inputs.now out.old))).layout }
    ensures sizes_after { sizes.new ≡ (check_stage (call pack.now name.now (codes stage topology mode dual_source depth)
        (lent layout.old sizes.old inputs.now out.old))).sizes }
    ensures out_after { out.new ≡ (check_stage (call pack.now name.now (codes stage topology mode dual_source depth)
        (lent layout.old sizes.old inputs.now out.old))).out }
{
    let codes = Codes {
        stage,
        topology,
        mode,
        dual_source,
        depth,
    };
    let outcome = check_stage(pack, layout, sizes, inputs, out, name, codes);
    hand_out(Answer::from(outcome), details)
}

// Chooses the entry point of a stage where no name is given: its position among all is the first detail.
#[unsafe(no_mangle)]
pub extern "C" fn bokwingi_entry_point(pack: &[u32], stage: u32, details: &mut [u32]) -> u32
    ensures { Handed (finalize_name (decode pack.now) stage) result details.old details.new }
{
    hand_out(
        Answer::from(finalize_entry_point_name(pack, stage)),
        details,
    )
}

// The type of a vertex format, as a lone type word in the first detail.
#[unsafe(no_mangle)]
pub extern "C" fn bokwingi_vertex_format(code: u32, details: &mut [u32]) -> u32
    ensures { Handed (format_answer (vertex_format code)) result details.old details.new }
{
    hand_out(Answer::from(vertex_format(code)), details)
}

// The type of a texture format, as a lone type word in the first detail.
#[unsafe(no_mangle)]
pub extern "C" fn bokwingi_texture_format(code: u32, details: &mut [u32]) -> u32
    ensures { Handed (format_answer (texture_format code)) result details.old details.new }
{
    hand_out(Answer::from(texture_format(code)), details)
}

// Whether a texture format is covered by the type, a lone type word, that a shader writes.
#[unsafe(no_mangle)]
pub extern "C" fn bokwingi_check_texture_format(
    format: u32,
    output: u32,
    details: &mut [u32],
) -> u32
    ensures { Handed (check_texture_format (texture_format format) (read_type output)) result details.old details.new }
{
    hand_out(Answer::from(check_texture_format(format, output)), details)
}

// Whether one lone type is below another: 1, 0, or 82 where one of them is no type.
#[unsafe(no_mangle)]
pub extern "C" fn bokwingi_is_subtype_of(a: u32, b: u32) -> u32
    ensures { result ≡ subtype_number (compare_types (read_type a) (read_type b)) }
{
    subtype_number(is_subtype_of(a, b))
}

// The varyings that a declared type gives with its binding: their count is the first detail, and their words stand from the start of the destination on.
#[unsafe(no_mangle)]
pub extern "C" fn bokwingi_populate(
    types: &[u32],
    asked: u32,
    binding: &[u32],
    out: &mut [u32],
    details: &mut [u32],
) -> u32
    ensures handed { Handed (populate_call types.now asked binding.now out.old).0 result details.old details.new }
    ensures out_after { out.new ≡ (populate_call types.now asked binding.now out.old).1 }
{
    let outcome = populate_types(types, asked, binding, out);
    hand_out(Answer::from(outcome), details)
}
