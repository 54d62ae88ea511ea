// What stands in a pack: codes, varyings and pairs at a position, and of an accepted pack its limits and counts.
ghost use Rattle.std.specs.Prelude.{◌≡◌, [], ◌∷◌, ◌<◌, ◌≤◌, length};
ghost use Rattle.word.specs.Words.{word_at, content_of};
ghost use Rattle.interface.specs.Format.{stage_at, stage_code, topology_at, built_in_of, pair_of, decode, decoded_number, interface_of};
ghost use Rattle.interface.specs.Inner.Reads.{varying_width, standing};
ghost use Rattle.interface.specs.Meaning.{entry_point_nth};
ghost use Rattle.interface.specs.Inner.Parts.{resource_count, entry_count, head_at, parts_at, Placed, Heads};

use crate::parts::parts_at;
use crate::types::{BuiltIn, EntryParts, Limits, PrimitiveTopology, SamplingPair, ShaderStage};
use word::{content, kind};

// The stage that a code means; a pack's codes are those below 5. No `From` of a number: it gives the last case past the last code.
pub fn stage_at(code: u32) -> ShaderStage
    ensures { result ≡ stage_at code }
{
    match code {
        0 => ShaderStage::Vertex,
        1 => ShaderStage::Fragment,
        2 => ShaderStage::Compute,
        3 => ShaderStage::Task,
        _ => ShaderStage::Mesh,
    }
}

pub fn stage_code(stage: ShaderStage) -> u32
    ensures value { result ≡ stage_code stage }
    ensures upper_bound { result < 5 }
{
    stage as u32
}

// The topology that a code means; a pack's codes are those below 5. No `From`, as above.
pub fn topology_at(code: u32) -> PrimitiveTopology
    ensures { result ≡ topology_at code }
{
    match code {
        0 => PrimitiveTopology::PointList,
        1 => PrimitiveTopology::LineList,
        2 => PrimitiveTopology::LineStrip,
        3 => PrimitiveTopology::TriangleList,
        _ => PrimitiveTopology::TriangleStrip,
    }
}

// The built-in that a word of kind 14 means. No `From`: a word holds more than the bits that are read.
pub fn built_in_of(w: u32) -> BuiltIn
    ensures { result ≡ built_in_of w }
{
    let size = w % 256;
    match w / 0x100_0000 % 8 {
        0 => BuiltIn::Other { places: size },
        1 => BuiltIn::PrimitiveIndex { places: size },
        2 => BuiltIn::DrawIndex { places: size },
        3 => BuiltIn::FragDepth { places: size },
        _ => BuiltIn::ClipDistances { array_size: size },
    }
}

// How many words a varying takes, by its first word.
pub fn varying_width(w: u32) -> usize
    ensures value { result ≡ varying_width (w ∷ []) }
    ensures upper_bound { result ≤ 2 }
{
    if kind(w) == 12 { 2 } else { 1 }
}

// The sampling pair that a word means. No `From`: a word holds more than the bits that are read.
pub fn pair_of(w: u32) -> SamplingPair
    ensures value { result ≡ pair_of w }
    ensures below_256 { (result.texture < 256) × (result.sampler < 256) }
{
    SamplingPair {
        texture: w / 256 % 256,
        sampler: w % 256,
    }
}

// The limit at a position.
fn limit(pack: &[u32], at: usize) -> u32
    requires { at < length pack.now }
    ensures { result ≡ content_of (word_at pack.now at) }
{
    content(pack[at])
}

// The position that a table has at an index. Tables of positions are lent beside the pack, since there is no heap.
pub fn position_at(table: &[u16], index: usize) -> u16
    requires { index < length table.now }
    ensures { result ≡ word_at table.now index }
{
    table[index]
}

// The words of a pack that was accepted.
#[derive(Clone, Copy)]
pub struct AcceptedPack<'a> {
    pub words: &'a [u32],
    pub ghost accepted: { decoded_number (decode words.now) ≡ 0 },
}

impl AcceptedPack<'_> {
    // The limits that the pack is checked against.
    #[tactic(auto, using(crate::proofs::ReadsWays::read_limits))]
    pub fn limits(&self) -> Limits
        ensures { result ≡ (interface_of (decode self.now.words.now)).limits }
    {
        let pack = self.words;
        Limits {
            max_inter_stage_shader_variables: limit(pack, 2),
            max_color_attachments: limit(pack, 3),
            max_compute_workgroup_size_x: limit(pack, 4),
            max_compute_workgroup_size_y: limit(pack, 5),
            max_compute_workgroup_size_z: limit(pack, 6),
            max_compute_invocations_per_workgroup: limit(pack, 7),
            max_task_invocations_per_dimension: limit(pack, 8),
            max_task_invocations_per_workgroup: limit(pack, 9),
            max_mesh_invocations_per_dimension: limit(pack, 10),
            max_mesh_invocations_per_workgroup: limit(pack, 11),
            max_mesh_output_vertices: limit(pack, 12),
            max_mesh_output_primitives: limit(pack, 13),
            max_task_payload_size: limit(pack, 14),
        }
    }

    // How many entry points the pack has.
    #[tactic(auto, using(crate::proofs::ReadsWays::counted_entries))]
    pub fn entry_count(&self) -> usize
        ensures value { result ≡ length (interface_of (decode self.now.words.now)).entries }
        ensures counted { result ≡ entry_count self.now.words.now }
        ensures upper_bound { result ≤ 16 }
    {
        (self.words[1] % 0x1_0000) as usize
    }

    // How many resources the pack has.
    #[tactic(auto, using(crate::proofs::ReadsWays::counted_resources))]
    pub(crate) fn resource_count(&self) -> usize
        ensures value { result ≡ length (interface_of (decode self.now.words.now)).resources }
        ensures counted { result ≡ resource_count self.now.words.now }
        ensures upper_bound { result ≤ 128 }
    {
        (self.words[1] / 0x1_0000 % 0x800) as usize
    }

    // The parts of the entry point at a place among those of the pack, by a table of their positions.
    #[tactic(auto, using(crate::proofs::ReadsParts::found_entry))]
    pub fn entry_parts(&self, heads: &[u16], position: usize) -> EntryParts
        requires heads_known { Heads self.now.words.now heads.now }
        requires position_in_bounds { position < length (interface_of (decode self.now.words.now)).entries }
        ensures stands { standing self.now.words.now result ≡ entry_point_nth (interface_of (decode self.now.words.now)).entries position }
        ensures placed { Placed self.now.words.now result }
        ensures parts { result ≡ parts_at self.now.words.now (head_at self.now.words.now position) }
    {
        parts_at(self.words, position_at(heads, position) as usize)
    }
}
