// Mesh record, payload, primitive index, draw index and per-vertex inputs: what is judged last.
ghost use Rattle.std.specs.Prelude.{◌≡◌};
ghost use Rattle.word.specs.Numbers.{number_of};
ghost use Rattle.word.specs.Refusals.{answer_of};
ghost use Rattle.interface.specs.Format.{topology_code};
ghost use Rattle.last_steps.specs.Last.{value_use, mesh_use, payload_use, payload_match, primitive_use, draw_use, per_vertex_use, match_uses, last_uses};

use input_steps::types::InputWalk;
use interface::types::{EntryPointMeshInfo, Limits, ShaderStage};
use output_steps::types::Request;
use varying::same_payload;
use word::refusal::{Number, Refusal};

// A value against its limit.
fn value_use(number: Number, value: u32, limit: u32) -> Result<(), Refusal>
    ensures { answer_of result ≡ value_use (number_of number) value limit }
{
    if limit < value {
        return Err(Refusal::new(number, value, limit, 0));
    }
    Ok(())
}

// What a mesh stage puts out at most, against the limits and the topology of the call; a mesh record stands on any stage.
#[tactic(auto, unfolding(crate::specs::Last::mesh_use))]
pub(crate) fn mesh_use(
    topology: u32,
    limits: Limits,
    mesh: Option<EntryPointMeshInfo>,
) -> Result<(), Refusal>
    ensures { answer_of result ≡ mesh_use topology limits mesh }
{
    let Some(info) = mesh else {
        return Ok(());
    };
    value_use(
        Number::MeshVertices,
        info.max_vertices,
        limits.max_mesh_output_vertices,
    )?;
    value_use(
        Number::MeshPrimitives,
        info.max_primitives,
        limits.max_mesh_output_primitives,
    )?;
    if topology != info.primitive_topology as u32 {
        return Err(Refusal::plain(Number::MeshTopology));
    }
    Ok(())
}

// The size of a payload, on any stage.
pub(crate) fn payload_use(limit: u32, payload: Option<u32>) -> Result<(), Refusal>
    ensures { answer_of result ≡ payload_use limit payload }
{
    match payload {
        Some(bytes) => value_use(Number::PayloadLarge, bytes, limit),
        None => Ok(()),
    }
}

// A mesh stage has the payload of the stage before it; one of 0 bytes is not an absent one.
#[tactic(auto, unfolding(crate::specs::Last::payload_match))]
pub(crate) fn payload_match(
    stage: ShaderStage,
    shader: Option<u32>,
    input: Option<u32>,
) -> Result<(), Refusal>
    ensures { answer_of result ≡ payload_match stage shader input }
{
    match stage {
        ShaderStage::Mesh => {
            if !same_payload(shader, input) {
                return Err(Refusal::plain(Number::PayloadMismatch));
            }
            Ok(())
        }
        _ => Ok(()),
    }
}

// A fragment stage reads a primitive index where a mesh stage before it writes one, and only there.
#[tactic(auto, unfolding(crate::specs::Last::primitive_use, word::specs::Choice::yes))]
pub(crate) fn primitive_use(
    stage: ShaderStage,
    read: bool,
    written: Option<bool>,
) -> Result<(), Refusal>
    ensures { answer_of result ≡ primitive_use stage read written }
{
    match (stage, written) {
        (ShaderStage::Fragment, Some(true)) => {
            if read {
                return Ok(());
            }
            Err(Refusal::plain(Number::MissingPrimitiveIndex))
        }
        (ShaderStage::Fragment, Some(false)) => {
            if read {
                return Err(Refusal::plain(Number::InvalidPrimitiveIndex));
            }
            Ok(())
        }
        _ => Ok(()),
    }
}

// A mesh stage behind a task stage has no draw index.
#[tactic(auto, unfolding(crate::specs::Last::draw_use, word::specs::Choice::yes))]
pub(crate) fn draw_use(stage: ShaderStage, draw: bool, input: Option<u32>) -> Result<(), Refusal>
    ensures { answer_of result ≡ draw_use stage draw input }
{
    match (stage, input) {
        (ShaderStage::Mesh, Some(_)) => {
            if draw {
                return Err(Refusal::plain(Number::DrawIndex));
            }
            Ok(())
        }
        _ => Ok(()),
    }
}

// A per-vertex input asks for triangles.
#[tactic(auto, unfolding(crate::specs::Last::per_vertex_use, word::specs::Choice::yes))]
pub(crate) fn per_vertex_use(per_vertex: bool, topology: u32) -> Result<(), Refusal>
    ensures { answer_of result ≡ per_vertex_use per_vertex topology }
{
    if !per_vertex {
        return Ok(());
    }
    match topology {
        3 | 4 => Ok(()),
        _ => Err(Refusal::plain(Number::PerVertexNotTriangles)),
    }
}

// Payload, primitive index, draw index and per-vertex inputs against the stage before and the topology.
fn match_step(
    request: Request,
    payload: Option<u32>,
    input: Option<u32>,
    written: Option<bool>,
    walk: InputWalk,
) -> Result<(), Refusal>
    ensures { answer_of result ≡ match_uses request payload input written walk }
{
    let stage = request.stage;
    payload_match(stage, payload, input)?;
    primitive_use(stage, walk.primitive_index, written)?;
    draw_use(stage, walk.draw_index, input)?;
    per_vertex_use(walk.per_vertex, request.topology)
}

// What is judged last, in order. The payload and the primitive index of the stage before are `input` and `written`.
pub fn last_step(
    request: Request,
    limits: Limits,
    mesh: Option<EntryPointMeshInfo>,
    payload: Option<u32>,
    input: Option<u32>,
    written: Option<bool>,
    walk: InputWalk,
) -> Result<(), Refusal>
    ensures { answer_of result ≡ last_uses request limits mesh payload input written walk }
{
    mesh_use(request.topology, limits, mesh)?;
    payload_use(limits.max_task_payload_size, payload)?;
    match_step(request, payload, input, written, walk)
}
