// Outputs of vertex and fragment stages, and the inter-stage slots that both take.
ghost use Rattle.std.specs.Prelude.{◌≡◌, [], ◌∷◌, ◌+◌, ◌*◌, ◌<◌, ◌≤◌, ◌^◌, length, drop};
ghost use Rattle.word.specs.Numbers.{number_of};
ghost use Rattle.word.specs.Refusals.{answer_of};
ghost use Rattle.interface.specs.Format.{built_in_of};
ghost use Rattle.interface.specs.Inner.Reads.{varying};
ghost use Rattle.interface.specs.Inner.Listed.{listed};
ghost use Rattle.output_steps.specs.Inner.Stands.{meant};
ghost use Rattle.interface.specs.declared.types.Varying.TheVariants as Var;
ghost use Rattle.output_steps.specs.Inner.Summary.{nothing, summary_of, plus};
ghost use Rattle.output_steps.specs.Outputs.{location_use, location_uses, count_use, point_part, vertex_outputs, fragment_slots, attachment_use, fragment_outputs, slots_step};

use crate::types::{EntryPoint, Request, Summary};
use interface::reads::{built_in_of, varying_width};
use interface::types::{BuiltIn, Limits, ShaderStage};
use interface::varyings::Varyings;
use word::refusal::{Number, Refusal};
use word::{content, kind};

// What stands among no varyings.
const NOTHING: Summary = Summary {
    locals: 0,
    clip_slots: 0,
    built_in_slots: 0,
    reach: 0,
    depth: false,
    primitive: false,
};

// The summary of the built-in that a word means.
#[tactic(auto, using(crate::proofs::OutputLaws::built_in_one, crate::proofs::OutputLaws::clip_few))]
fn built_in_summary(w: u32) -> Summary
    ensures { result ≡ summary_of (Var.BuiltIn (built_in_of w) ∷ []) }
{
    match built_in_of(w) {
        BuiltIn::Other { places } | BuiltIn::DrawIndex { places } => Summary {
            built_in_slots: places,
            ..NOTHING
        },
        BuiltIn::PrimitiveIndex { places } => Summary {
            built_in_slots: places,
            primitive: true,
            ..NOTHING
        },
        BuiltIn::FragDepth { places } => Summary {
            built_in_slots: places,
            depth: true,
            ..NOTHING
        },
        BuiltIn::ClipDistances { array_size } => Summary {
            clip_slots: (array_size + 3) / 4,
            ..NOTHING
        },
    }
}

impl Summary {
    // Two summaries as one.
    fn joined(self, other: Summary) -> Summary
        requires few { (self.locals < 2 ^ 31) × (self.clip_slots < 2 ^ 31) × (self.built_in_slots < 2 ^ 31) }
        requires few_more { (other.locals < 2 ^ 31) × (other.clip_slots < 2 ^ 31) × (other.built_in_slots < 2 ^ 31) }
        ensures { result ≡ plus self other }
    {
        Summary {
            locals: self.locals + other.locals,
            clip_slots: self.clip_slots + other.clip_slots,
            built_in_slots: self.built_in_slots + other.built_in_slots,
            reach: self.reach.max(other.reach),
            depth: self.depth || other.depth,
            primitive: self.primitive || other.primitive,
        }
    }

    // A summary with one varying more, by its first word.
    fn with_next(self, w: u32) -> Summary
        requires { (self.locals < 2 ^ 31) × (self.clip_slots < 2 ^ 31) × (self.built_in_slots < 2 ^ 31) }
        ensures { result ≡ plus self (summary_of (varying (w ∷ []) ∷ [])) }
    {
        if kind(w) == 12 {
            return Summary {
                locals: self.locals + 1,
                reach: self.reach.max(content(w) + 1),
                ..self
            };
        }
        self.joined(built_in_summary(w))
    }
}

// What stands among varyings, in one pass.
pub(crate) fn summary(varyings: &Varyings<'_>) -> Summary
    ensures value { result ≡ summary_of (listed varyings.now) }
    ensures few { (result.locals ≤ 63) × (result.clip_slots ≤ 63 * 64) × (result.built_in_slots ≤ 63 * 255) }
{
    let pack = varyings.pack;
    let n = varyings.n;
    let mut s = NOTHING;
    let mut at = varyings.from;
    for _i in 0..n {
        let w = pack[at];
        s = s.with_next(w);
        at += varying_width(w);
    }
    s
}

// A local variable at or past a location is refused, by its first word.
fn location_use(w: u32, number: Number, past: u32, limit: u32) -> Result<(), Refusal>
    ensures { answer_of result ≡ location_use (number_of number) past limit (varying (w ∷ [])) }
{
    if kind(w) != 12 {
        return Ok(());
    }
    let location = content(w);
    if location < past {
        return Ok(());
    }
    Err(Refusal::new(number, location, limit, 0))
}

// The first local variable at or past a location.
pub(crate) fn location_uses(
    varyings: &Varyings<'_>,
    number: Number,
    past: u32,
    limit: u32,
) -> Result<(), Refusal>
    ensures { answer_of result ≡ location_uses (number_of number) past limit (listed varyings.now) }
{
    let pack = varyings.pack;
    let n = varyings.n;
    let mut at = varyings.from;
    for _i in 0..n {
        let w = pack[at];
        location_use(w, number, past, limit)?;
        at += varying_width(w);
    }
    Ok(())
}

fn count_use(number: Number, count: u32, slots: u32, limit: u32) -> Result<(), Refusal>
    ensures { answer_of result ≡ count_use (number_of number) count slots limit }
{
    if slots < count {
        return Err(Refusal::new(number, count, limit, 0));
    }
    Ok(())
}

// A point list takes one slot.
fn point_part(topology: u32) -> u32
    ensures value { result ≡ point_part topology }
    ensures upper_bound { result ≤ 1 }
{
    if topology == 0 { 1 } else { 0 }
}

// The outputs of a vertex stage against the slots that a point list and clip distances leave.
pub(crate) fn vertex_outputs(
    varyings: &Varyings<'_>,
    outputs: Summary,
    topology: u32,
    limit: u32,
) -> Result<(), Refusal>
    requires { (outputs ≡ summary_of (listed varyings.now)) × (outputs.clip_slots ≤ 63 * 64) }
    ensures { answer_of result ≡ vertex_outputs topology limit (listed varyings.now) }
{
    let clip = outputs.clip_slots;
    let taken = point_part(topology) + clip;
    if limit < taken {
        return Err(Refusal::plain(Number::SlotsUsedUp));
    }
    if limit < 1 + clip {
        return Err(Refusal::plain(Number::SlotsUsedUp));
    }
    if limit - clip < outputs.reach {
        return location_uses(varyings, Number::VertexLocation, limit - clip, limit);
    }
    count_use(Number::VertexCount, outputs.locals, limit - taken, limit)
}

// The inputs of a fragment stage against the slots that its built-in inputs leave.
pub(crate) fn fragment_slots(
    varyings: &Varyings<'_>,
    limit: u32,
    locals: u32,
) -> Result<(), Refusal>
    ensures { answer_of result ≡ fragment_slots limit locals (listed varyings.now) }
{
    let s = summary(varyings);
    let taken = s.built_in_slots;
    if limit < taken {
        return Err(Refusal::plain(Number::SlotsUsedUp));
    }
    if limit < s.reach {
        return location_uses(varyings, Number::FragmentLocation, limit, limit);
    }
    count_use(Number::FragmentCount, locals, limit - taken, limit)
}

// Dual source blending asks for a shader that has it, and fragment depth for a depth attachment.
pub(crate) fn attachment_use(entry: &EntryPoint<'_>, request: Request) -> Result<(), Refusal>
    ensures { answer_of result ≡ attachment_use request.dual_source request.depth
        (meant entry.now).dual (meant entry.now).outputs }
{
    let shader = entry.pack[entry.parts.head] % 2 == 1;
    if request.dual_source && !shader {
        return Err(Refusal::plain(Number::DualSource));
    }
    if entry.summary.depth && !request.depth {
        return Err(Refusal::plain(Number::DepthAttachment));
    }
    Ok(())
}

// The inputs and outputs of a fragment stage.
pub(crate) fn fragment_outputs(
    entry: &EntryPoint<'_>,
    limits: Limits,
    request: Request,
    locals: u32,
) -> Result<(), Refusal>
    ensures { answer_of result ≡ fragment_outputs request limits (meant entry.now) locals }
{
    let limit = limits.max_inter_stage_shader_variables;
    fragment_slots(&entry.inputs(), limit, locals)?;
    let most = limits.max_color_attachments;
    if most < entry.summary.reach {
        return location_uses(&entry.outputs(), Number::ColourLocation, most, most);
    }
    attachment_use(entry, request)
}

// What a stage puts out, or a fragment stage takes in, against the slots that there are.
#[tactic(auto, unfolding(crate::specs::Outputs::slots_step))]
pub fn slots_step(
    entry: &EntryPoint<'_>,
    limits: Limits,
    request: Request,
    locals: u32,
) -> Result<(), Refusal>
    ensures { answer_of result ≡ slots_step request.stage request limits (meant entry.now) locals }
{
    match request.stage {
        ShaderStage::Vertex => {
            let limit = limits.max_inter_stage_shader_variables;
            vertex_outputs(&entry.outputs(), entry.summary, request.topology, limit)
        }
        ShaderStage::Fragment => fragment_outputs(entry, limits, request, locals),
        _ => Ok(()),
    }
}
