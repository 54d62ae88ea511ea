// What a stage check is given.
ghost use Rattle.std.specs.Prelude.{◌≡◌};
ghost use Rattle.interface.specs.Format.{decode, decoded_number, interface_of};
ghost use Rattle.interface.specs.Inner.Parts.{Offsets};
ghost use Rattle.output_steps.specs.Inner.Stands.{meant};
ghost use Rattle.stage.specs.Inner.Given.{Named};

use entry_points::module::Module;
use output_steps::types::EntryPoint;
use resource_steps::table::Resources;

// The numbers of a call. Any may be given: those that are no codes are refused.
#[derive(Clone, Copy)]
pub struct Codes {
    pub stage: u32,
    pub topology: u32,
    pub mode: u32,
    pub dual_source: u32,
    pub depth: u32,
}

// An accepted pack, with the positions of its resources.
#[derive(Clone, Copy)]
pub(crate) struct Shader<'a, 'b> {
    pub module: Module<'a>,
    pub offsets: &'b [u16],
    pub ghost offsets_known: { Offsets module.pack.now offsets.now },
}

// An entry point of an accepted pack, with the pack's resources.
#[derive(Clone, Copy)]
pub(crate) struct StageEntry<'a, 'b> {
    pub point: EntryPoint<'a>,
    pub resources: &'b Resources<'b>,
    pub ghost accepted: { decoded_number (decode point.pack.now) ≡ 0 },
    pub ghost listed: { resources.now.table ≡ (interface_of (decode point.pack.now)).resources },
    pub ghost named: { Named (interface_of (decode point.pack.now)) (meant point) },
}
