// What a stage hands on: the list out, written over the lent words.
ghost use Rattle.std.specs.Prelude.{◌≡◌, true, [], ◌∷◌, ◌+◌, ◌*◌, ◌<◌, ◌≤◌, length, drop, set};
ghost use Rattle.word.specs.Lists.{every};
ghost use Rattle.varying.specs.Format.{payload_encodable};
ghost use Rattle.stage_lists.specs.Format.{out_well_formed, decode_stage, encode_stage};
ghost use Rattle.interface.specs.Inner.Reads.{varying};
ghost use Rattle.interface.specs.Inner.Listed.{listed};
ghost use Rattle.output_steps.specs.Inner.Stands.{meant};
ghost use Rattle.output_steps.specs.Outputs.{is_local, local_count};
ghost use Rattle.output_steps.specs.ListOut.{locals_of, primitive_out, stage_out};
ghost use Rattle.output_steps.specs.Inner.ListOut.{output_encodable, handed};

use crate::types::EntryPoint;
use input_steps::types::InputWalk;
use interface::reads::varying_width;
use interface::types::ShaderStage;
use interface::varyings::Varyings;
use stage_lists::list_out::{begin_out, insert_words};
use word::kind;

// Whether a mesh stage writes a primitive index; other stages have none.
#[tactic(auto, unfolding(word::specs::Choice::yes))]
fn primitive_out(stage: ShaderStage, written: bool) -> Option<bool>
    ensures { result ≡ primitive_out stage written }
{
    match stage {
        ShaderStage::Mesh => Some(written),
        _ => None,
    }
}

// An output by its words: a local one is put into its place, a built-in one is passed over. The head is handed over, and the answer is the new one.
fn hand_on(out: &mut [u32], head: u32, first: u32, second: u32) -> u32
    requires head_value { (out_well_formed (set out.old 0 head) ≡ true) × (output_encodable (varying (first ∷ second ∷ [])) ≡ true) }
    requires second_len_bound { length (decode_stage (set out.old 0 head)).varyings + is_local (varying (first ∷ second ∷ [])) ≤ 63 }
    requires second_in_bounds { 2 * is_local (varying (first ∷ second ∷ [])) ≤ length (decode_stage (set out.old 0 head)).room }
    ensures result_after { decode_stage (set out.new 0 result) ≡ handed (varying (first ∷ second ∷ [])) (decode_stage (set out.old 0 head)) }
    ensures result_after_2 { out_well_formed (set out.new 0 result) ≡ true }
{
    if kind(first) == 12 {
        return insert_words(out, head, first, second);
    }
    head
}

// Outputs by rising location, behind a payload and a primitive index.
pub(crate) fn write_out(
    outputs: &Varyings<'_>,
    out: &mut [u32],
    primitive: Option<bool>,
    payload: Option<u32>,
)
    requires payload_value { payload_encodable payload ≡ true }
    requires encodable { every output_encodable (listed outputs.now) ≡ true }
    requires room { 2 + 2 * local_count (listed outputs.now) ≤ length out.old }
    ensures { out.new ≡ encode_stage (record {
      primitive = primitive;
      payload = payload;
      varyings = locals_of (listed outputs.now) [];
      room = drop (2 + 2 * length (locals_of (listed outputs.now) [])) out.old;
    }) }
{
    let pack = outputs.pack;
    let n = outputs.n;
    let mut head = begin_out(out, primitive, payload);
    let mut at = outputs.from;
    for _i in 0..n {
        let first = pack[at];
        head = hand_on(out, head, first, pack[at + 1]);
        at += varying_width(first);
    }
    out[0] = head;
}

// The list out of an entry point.
pub fn list_out(entry: &EntryPoint<'_>, stage: ShaderStage, walk: InputWalk, out: &mut [u32])
    requires encodable { every output_encodable (meant entry.now).outputs ≡ true }
    requires room { 2 + 2 * local_count (meant entry.now).outputs ≤ length out.old }
    ensures { out.new ≡ encode_stage (stage_out stage (meant entry.now) walk out.old) }
{
    let primitive = primitive_out(stage, walk.primitive_index || entry.summary.primitive);
    write_out(&entry.outputs(), out, primitive, entry.payload());
}
