// The inputs of an entry point against what the stage before provides.
ghost use Rattle.std.specs.Prelude.{◌≡◌, [], ◌∷◌, ◌<◌, ◌^◌, Some};
ghost use Rattle.word.specs.Choice.{pick};
ghost use Rattle.word.specs.Refusals.{answer_of, number_or_none};
ghost use Rattle.word.specs.Words.{word_at, content_of};
ghost use Rattle.varying.specs.Format.{var_of};
ghost use Rattle.stage_lists.specs.Meaning.{varying_at};
ghost use Rattle.stage_lists.specs.Format.{decode_stage};
ghost use Rattle.interface.specs.Inner.Reads.{varying};
ghost use Rattle.interface.specs.Inner.Listed.{listed};
ghost use Rattle.input_steps.specs.Inputs.{vertex_input, fragment_input, input_number, met_local, met_built_in, start_walk, input_step, input_steps};

use crate::types::InputWalk;
use interface::reads::{built_in_of, varying_width};
use interface::types::{BuiltIn, ShaderStage};
use interface::varyings::Varyings;
use stage_lists::stage_io::StageList;
use varying::{InterfaceVar, location_well_formed, var_of};
use word::content;
use word::refusal::{Number, Refusal};

// A vertex input by its word and the provided one's: the scalar kinds agree, and the shader's own is not per primitive.
fn vertex_input(w: u32, provided: u32) -> Result<(), Number>
    ensures { number_or_none result ≡ vertex_input (var_of w) (var_of provided) }
{
    if w / 16 % 4 != provided / 16 % 4 {
        return Err(Number::InputType);
    }
    if w / 0x4_0000 % 2 == 1 {
        return Err(Number::InputPerPrimitive);
    }
    Ok(())
}

// A fragment input by value: interpolation, sampling, type and the per-primitive bit, in this order.
#[tactic(auto, unfolding(crate::specs::Inputs::fragment_input, word::specs::Choice::yes))]
fn fragment_values(iv: InterfaceVar, provided: InterfaceVar) -> Result<(), Number>
    ensures { number_or_none result ≡ fragment_input iv provided }
{
    if iv.interpolation != provided.interpolation {
        return Err(Number::InputInterpolation);
    }
    if iv.sampling != provided.sampling {
        return Err(Number::InputSampling);
    }
    if !iv.ty.fits(provided.ty) {
        return Err(Number::InputType);
    }
    match (iv.per_primitive, provided.per_primitive) {
        (true, true) | (false, false) => Ok(()),
        _ => Err(Number::InputPerPrimitive),
    }
}

// A fragment input by its word and the provided one's, which may be the same.
fn fragment_input(w: u32, provided: u32) -> Result<(), Number>
    ensures { number_or_none result ≡ fragment_input (var_of w) (var_of provided) }
{
    if w == provided {
        return Ok(());
    }
    fragment_values(var_of(w), var_of(provided))
}

// A local input by its word and the provided one's. Compute, task and mesh stages have no local inputs.
#[tactic(auto, unfolding(crate::specs::Inputs::input_number))]
fn provided_input(stage: ShaderStage, w: u32, provided: u32) -> Result<(), Number>
    ensures { number_or_none result ≡ input_number stage (var_of w) (Some (var_of provided)) }
{
    match stage {
        ShaderStage::Vertex => vertex_input(w, provided),
        ShaderStage::Fragment => fragment_input(w, provided),
        ShaderStage::Compute | ShaderStage::Task | ShaderStage::Mesh => Err(Number::InputType),
    }
}

// A local input at a location. Inputs mostly stand in the order of what is provided.
#[tactic(auto, unfolding(crate::specs::Inputs::input_number))]
fn local_input(
    stage: ShaderStage,
    inputs: &StageList<'_>,
    location: u32,
    w: u32,
    near: usize,
) -> Result<(), Number>
    ensures { number_or_none result ≡ input_number stage (var_of w) (varying_at location (decode_stage inputs.now.words.now).varyings) }
{
    match inputs.find_location(location, near) {
        Some(index) => provided_input(stage, w, inputs.words[index]),
        None => Err(Number::InputMissing),
    }
}

// The walk past a local input; interpolation 4 is per vertex.
#[tactic(auto, unfolding(varying::specs::Format::var_of))]
fn met_local(w: u32, walk: &mut InputWalk)
    requires { walk.old.locals < 2 ^ 31 }
    ensures { walk.new ≡ met_local (var_of w) walk.old }
{
    walk.per_vertex = walk.per_vertex || w / 0x1000 % 8 == 4;
    walk.locals += 1;
}

// The walk past a built-in input.
fn met_built_in(built_in: BuiltIn, walk: &mut InputWalk)
    ensures { walk.new ≡ met_built_in built_in walk.old }
{
    match built_in {
        BuiltIn::PrimitiveIndex { .. } => walk.primitive_index = true,
        BuiltIn::DrawIndex { .. } => walk.draw_index = true,
        _ => {}
    }
}

// One input by its words: a local one is judged, a built-in one is noted. The walk is altered in place.
pub(crate) fn input_step(
    stage: ShaderStage,
    inputs: &StageList<'_>,
    first: u32,
    second: u32,
    walk: &mut InputWalk,
) -> Result<(), Refusal>
    requires { walk.old.locals < 2 ^ 31 }
    ensures answer { answer_of result ≡ (input_step stage (decode_stage inputs.now.words.now).varyings (varying (first ∷ second ∷ [])) walk.old).answer }
    ensures walk { walk.new ≡ (input_step stage (decode_stage inputs.now.words.now).varyings (varying (first ∷ second ∷ [])) walk.old).walk }
{
    if !location_well_formed(first) {
        met_built_in(built_in_of(first), walk);
        return Ok(());
    }
    let location = content(first);
    if let Err(number) = local_input(stage, inputs, location, second, walk.locals as usize) {
        return Err(Refusal::new(number, location, 0, 0));
    }
    met_local(second, walk);
    Ok(())
}

// Each input in order, until one is refused, and what the walk has met by then, which is told of a refusal too.
pub fn input_steps(
    varyings: &Varyings<'_>,
    inputs: &StageList<'_>,
    stage: ShaderStage,
) -> (Result<(), Refusal>, InputWalk)
    ensures answer { answer_of result.0 ≡ (input_steps stage (decode_stage inputs.now.words.now).varyings (listed varyings.now) start_walk).answer }
    ensures walk { result.1 ≡ (input_steps stage (decode_stage inputs.now.words.now).varyings (listed varyings.now) start_walk).walk }
{
    let pack = varyings.pack;
    let n = varyings.n;
    let mut walk = InputWalk::START;
    let mut at = varyings.from;
    for _i in 0..n {
        let first = pack[at];
        if let Err(refusal) = input_step(stage, inputs, first, pack[at + 1], &mut walk) {
            return (Err(refusal), walk);
        }
        at += varying_width(first);
    }
    (Ok(()), walk)
}
