// A stage check, whole: the pack, the lists and codes of the call, the entry point, and its steps.
// Layout and sizes are lent for writing, so that they are well formed stays a clause (layouts, at `push_entry`).
ghost use Rattle.std.specs.Prelude.{◌≡◌, true, ◌&&◌, ◌<◌, ◌≤◌, length};
ghost use Rattle.word.specs.Refusals.{answer_of};
ghost use Rattle.layouts.specs.Format.{layout_well_formed, decode_layout};
ghost use Rattle.sizes.specs.Format.{sizes_well_formed, decode_sizes};
ghost use Rattle.stage_lists.specs.Format.{decode_stage};
ghost use Rattle.interface.specs.Format.{decode, interface_of};
ghost use Rattle.interface.specs.Meaning.{entry_point_nth};
ghost use Rattle.output_steps.specs.Inner.Stands.{meant};
ghost use Rattle.resource_steps.specs.Meaning.{state};
ghost use Rattle.resource_steps.specs.Resources.{resource_steps};
ghost use Rattle.stage.specs.Meaning.{lent, call, outcome};
ghost use Rattle.stage.specs.Inner.Bindings.{binding_steps};
ghost use Rattle.stage.specs.Stage.{input_walk, behind_pairs, request_of, derived_of, lists_good, codes_good, out_words, handed_out, run_body, on_entry_point, on_named, check_stage};

use crate::judge::{judge, pair_step};
use crate::types::{Codes, Shader, StageEntry};
use entry_points::module::Module;
use interface::reads::stage_at;
use interface::types::ShaderStage;
use layouts::layout::{LayoutList, layout_well_formed};
use output_steps::list_out::list_out;
use output_steps::types::{EntryPoint, Request};
use pack_check::check_pack::index_pack;
use resource_steps::derive::derive_steps;
use resource_steps::provide::provide_steps;
use resource_steps::table::{ResourceTable, Resources};
use sizes::sizes::sizes_well_formed;
use stage_lists::stage_io::{StageList, stage_well_formed};
use word::refusal::{Number, Refusal};

// The resources of an entry point against the layout and the sizes. The two modes' steps write different lists, so they are no one function's
// parameter.
fn check_resources(
    entry: &StageEntry<'_, '_>,
    entries: &mut [u8; 128],
    layout: &mut [u32],
    sizes: &mut [u32],
    stage: ShaderStage,
    derived: bool,
) -> Result<(), Refusal>
    requires { (layout_well_formed layout.old ≡ true) × (sizes_well_formed sizes.old ≡ true) }
    ensures state_after { state (answer_of result) (decode_layout layout.new) (decode_sizes sizes.new)
        ≡ resource_steps stage derived entry.now.resources.now.table (meant entry.now.point).pairs (meant entry.now.point).resources
        (decode_layout layout.old) (decode_sizes sizes.old) }
    ensures well_formed_after { (layout_well_formed layout.new ≡ true) × (sizes_well_formed sizes.new ≡ true) }
{
    let pack = entry.point.pack;
    let parts = entry.point.parts;
    let listed = &pack[parts.resources..parts.pairs];
    if derived {
        let pairs = &pack[parts.pairs..parts.inputs];
        derive_steps(entry.resources, listed, pairs, stage, layout)?;
        return Ok(());
    }
    let layout = LayoutList { words: &*layout };
    provide_steps(entry.resources, listed, stage, entries, &layout, sizes)?;
    Ok(())
}

// The resources, and the pairs where the layout is provided.
fn check_bindings(
    entry: &StageEntry<'_, '_>,
    layout: &mut [u32],
    sizes: &mut [u32],
    stage: ShaderStage,
    derived: bool,
) -> Result<(), Refusal>
    requires { (layout_well_formed layout.old ≡ true) × (sizes_well_formed sizes.old ≡ true) }
    ensures state_after { state (answer_of result) (decode_layout layout.new) (decode_sizes sizes.new)
        ≡ binding_steps derived stage (interface_of (decode entry.now.point.pack.now)) (meant entry.now.point)
        (decode_layout layout.old) (decode_sizes sizes.old) }
    ensures well_formed_after { (layout_well_formed layout.new ≡ true) × (sizes_well_formed sizes.new ≡ true) }
{
    let mut entries: [u8; 128] = [0; 128];
    check_resources(entry, &mut entries, layout, sizes, stage, derived)?;
    pair_step(entry, &entries, &LayoutList { words: &*layout }, derived)
}

// The steps behind the pairs, and the list out where all of them passed.
fn judge_out(
    entry: &StageEntry<'_, '_>,
    inputs: &StageList<'_>,
    out: &mut [u32],
    request: Request,
) -> Result<(), Refusal>
    requires { out_words (meant entry.now.point) ≤ length out.old }
    ensures answer { answer_of result ≡ behind_pairs request (interface_of (decode entry.now.point.pack.now)) (meant entry.now.point) (decode_stage inputs.now.words.now) }
    ensures out_after { out.new ≡ handed_out (answer_of result) request.stage (meant entry.now.point)
        (input_walk request (meant entry.now.point) (decode_stage inputs.now.words.now)).walk out.old }
{
    let walk = judge(entry, inputs, request)?;
    list_out(&entry.point, request.stage, walk, out);
    Ok(())
}

// What the codes of a call ask for, but for the mode.
fn request_of(codes: Codes) -> Request
    ensures { result ≡ request_of codes }
{
    Request {
        stage: stage_at(codes.stage),
        topology: codes.topology,
        dual_source: codes.dual_source == 1,
        depth: codes.depth == 1,
    }
}

// All steps of an entry point.
fn run_body(
    entry: &StageEntry<'_, '_>,
    layout: &mut [u32],
    sizes: &mut [u32],
    inputs: &StageList<'_>,
    out: &mut [u32],
    codes: Codes,
) -> Result<(), Refusal>
    requires well_formed { (layout_well_formed layout.old ≡ true) × (sizes_well_formed sizes.old ≡ true) }
    requires room { out_words (meant entry.now.point) ≤ length out.old }
    ensures { outcome (answer_of result) layout.new sizes.new out.new ≡ run_body (derived_of codes) (request_of codes)
        (lent layout.old sizes.old inputs.now.words.now out.old)
        (interface_of (decode entry.now.point.pack.now)) (meant entry.now.point) }
{
    let request = request_of(codes);
    check_bindings(entry, layout, sizes, request.stage, codes.mode == 1)?;
    judge_out(entry, inputs, out, request)
}

// The room of the list out, then all steps of the entry point at a place among those of the pack.
fn on_entry_point(
    shader: &Shader<'_, '_>,
    position: usize,
    layout: &mut [u32],
    sizes: &mut [u32],
    inputs: &StageList<'_>,
    out: &mut [u32],
    codes: Codes,
) -> Result<(), Refusal>
    requires position_in_bounds { position < length (interface_of (decode shader.now.module.pack.now)).entries }
    requires well_formed { (layout_well_formed layout.old ≡ true) × (sizes_well_formed sizes.old ≡ true) }
    ensures { outcome (answer_of result) layout.new sizes.new out.new ≡ on_entry_point (derived_of codes) (request_of codes)
        (lent layout.old sizes.old inputs.now.words.now out.old)
        (interface_of (decode shader.now.module.pack.now)) (entry_point_nth (interface_of (decode shader.now.module.pack.now)).entries position) }
{
    let pack = shader.module.pack;
    let point = EntryPoint::new(pack, shader.module.entry_parts(position));
    if out.len() < 2 + 2 * point.summary.locals as usize {
        return Err(Refusal::plain(Number::ShortOut));
    }
    let resources = Resources {
        table: ResourceTable::new(pack, shader.offsets),
    };
    let entry = StageEntry {
        point,
        resources: &resources,
    };
    run_body(&entry, layout, sizes, inputs, out, codes)
}

// The entry point of a stage and a name, if there is one.
#[tactic(auto, using(crate::proofs::CheckLaws::chosen_below, crate::proofs::CheckLaws::chosen_at, crate::proofs::CheckLaws::chosen_absent))]
fn on_named(
    shader: &Shader<'_, '_>,
    layout: &mut [u32],
    sizes: &mut [u32],
    inputs: &StageList<'_>,
    out: &mut [u32],
    name: &[u8],
    codes: Codes,
) -> Result<(), Refusal>
    requires { (layout_well_formed layout.old ≡ true) × (sizes_well_formed sizes.old ≡ true) }
    ensures { outcome (answer_of result) layout.new sizes.new out.new ≡ on_named (call shader.now.module.pack.now name.now codes
        (lent layout.old sizes.old inputs.now.words.now out.old)) (interface_of (decode shader.now.module.pack.now)) }
{
    let Some(position) = shader.module.find_entry_point(stage_at(codes.stage), name) else {
        return Err(Refusal::plain(Number::EntryAbsent));
    };
    on_entry_point(shader, position, layout, sizes, inputs, out, codes)
}

// Whether the codes of a call are in their ranges.
fn codes_good(codes: Codes) -> bool
    ensures { result ≡ codes_good codes }
{
    codes.stage < 5
        && codes.topology < 6
        && codes.mode < 2
        && codes.dual_source < 2
        && codes.depth < 2
}

// Whether the lists of a call are well formed.
#[tactic(auto, unfolding(crate::specs::Stage::lists_good))]
fn lists_good(layout: &[u32], sizes: &[u32], inputs: &[u32]) -> bool
    ensures { result ≡ lists_good layout.now sizes.now inputs.now }
{
    layout_well_formed(layout) && sizes_well_formed(sizes) && stage_well_formed(inputs)
}

// Whether the lists of a call are well formed and its codes in their ranges.
fn call_good(layout: &[u32], sizes: &[u32], inputs: &[u32], codes: Codes) -> bool
    ensures { result ≡ (lists_good layout.now sizes.now inputs.now && codes_good codes) }
{
    lists_good(layout, sizes, inputs) && codes_good(codes)
}

// The lists and codes of a call, and the entry point of its stage and name in a pack that was accepted.
fn check_call(
    shader: &Shader<'_, '_>,
    layout: &mut [u32],
    sizes: &mut [u32],
    inputs: &[u32],
    out: &mut [u32],
    name: &[u8],
    codes: Codes,
) -> Result<(), Refusal>
    ensures { outcome (answer_of result) layout.new sizes.new out.new ≡ check_stage (call shader.now.module.pack.now name.now codes
        (lent layout.old sizes.old inputs.now out.old)) }
{
    if call_good(layout, sizes, inputs, codes) {
        let inputs = StageList { words: inputs };
        return on_named(shader, layout, sizes, &inputs, out, name, codes);
    }
    Err(Refusal::plain(Number::BadCall))
}

// Checks one stage: whether the entry point of this stage and name fits the layout, what the stage before hands on, and the limits.
pub fn check_stage(
    pack: &[u32],
    layout: &mut [u32],
    sizes: &mut [u32],
    inputs: &[u32],
    out: &mut [u32],
    name: &[u8],
    codes: Codes,
) -> Result<(), Refusal>
    ensures { outcome (answer_of result) layout.new sizes.new out.new ≡ check_stage (call pack.now name.now codes
        (lent layout.old sizes.old inputs.now out.old)) }
{
    let mut offsets: [u16; 128] = [0; 128];
    let mut heads: [u16; 16] = [0; 16];
    index_pack(pack, &mut offsets, &mut heads)?;
    let module = Module {
        pack,
        heads: &heads,
    };
    let shader = Shader {
        module,
        offsets: &offsets,
    };
    check_call(&shader, layout, sizes, inputs, out, name, codes)
}
