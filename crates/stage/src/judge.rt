// The steps behind the resources: they alter no list.
ghost use Rattle.std.specs.Prelude.{◌≡◌, true, length, IfOk};
ghost use Rattle.word.specs.Refusals.{answer_of};
ghost use Rattle.layouts.specs.Format.{decode_layout};
ghost use Rattle.stage_lists.specs.Format.{decode_stage};
ghost use Rattle.interface.specs.Format.{decode, interface_of};
ghost use Rattle.output_steps.specs.Inner.Stands.{meant};
ghost use Rattle.input_steps.specs.Workgroup.{workgroup_step};
ghost use Rattle.stage.specs.Stage.{pair_step, input_walk, behind_inputs, behind_pairs};

use crate::types::StageEntry;
use input_steps::inputs::input_steps;
use input_steps::types::InputWalk;
use input_steps::workgroup::workgroup_step;
use interface::reads::AcceptedPack;
use interface::types::ShaderStage;
use last_steps::last::last_step;
use layouts::layout::LayoutList;
use output_steps::outputs::slots_step;
use output_steps::types::Request;
use resource_steps::pairs::pair_uses;
use stage_lists::stage_io::StageList;
use word::refusal::Refusal;

// Slots, outputs and what is judged last, once the inputs passed.
#[tactic(auto, unfolding(crate::specs::Stage::behind_inputs, last_steps::specs::Last::last_step))]
fn after_inputs(
    entry: &StageEntry<'_, '_>,
    inputs: &StageList<'_>,
    request: Request,
    walk: InputWalk,
) -> Result<(), Refusal>
    ensures { answer_of result ≡ behind_inputs request (interface_of (decode entry.now.point.pack.now)).limits
        (meant entry.now.point) (decode_stage inputs.now.words.now) walk }
{
    let point = &entry.point;
    let limits = AcceptedPack { words: point.pack }.limits();
    slots_step(point, limits, request, walk.locals)?;
    last_step(
        request,
        limits,
        point.mesh(),
        point.payload(),
        stage_lists::stage_io::payload(inputs.words),
        stage_lists::stage_io::primitive_index(inputs.words),
        walk,
    )
}

// Pairs, where the layout is provided.
pub(crate) fn pair_step(
    entry: &StageEntry<'_, '_>,
    entries: &[u8; 128],
    layout: &LayoutList<'_>,
    derived: bool,
) -> Result<(), Refusal>
    ensures { answer_of result ≡ pair_step derived entry.now.resources.now.table (meant entry.now.point) (decode_layout layout.now.words.now) }
{
    if derived {
        return Ok(());
    }
    let parts = entry.point.parts;
    let pairs = &entry.point.pack[parts.pairs..parts.inputs];
    pair_uses(layout, &entry.resources.table, entries, pairs)
}

// The workgroup size of an entry point against the limits of its stage.
fn size_step(entry: &StageEntry<'_, '_>, stage: ShaderStage) -> Result<(), Refusal>
    ensures { answer_of result ≡ workgroup_step stage (meant entry.now.point).workgroup (interface_of (decode entry.now.point.pack.now)).limits }
{
    let pack = AcceptedPack {
        words: entry.point.pack,
    };
    workgroup_step(stage, entry.point.workgroup(), pack.limits())
}

// All steps behind the pairs: the walk over the inputs, where each of them passed.
pub(crate) fn judge(
    entry: &StageEntry<'_, '_>,
    inputs: &StageList<'_>,
    request: Request,
) -> Result<InputWalk, Refusal>
    ensures answer { answer_of result ≡ behind_pairs request (interface_of (decode entry.now.point.pack.now)) (meant entry.now.point) (decode_stage inputs.now.words.now) }
    ensures walk { IfOk result (λ w. w ≡ (input_walk request (meant entry.now.point) (decode_stage inputs.now.words.now)).walk) }
{
    size_step(entry, request.stage)?;
    let (met, walk) = input_steps(&entry.point.inputs(), inputs, request.stage);
    met?;
    after_inputs(entry, inputs, request, walk)?;
    Ok(walk)
}
