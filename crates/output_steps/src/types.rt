// What a stage check is asked for, an entry point by its words, and what stands among varyings.
ghost use Rattle.std.specs.Prelude.{◌≡◌};
ghost use Rattle.interface.specs.Inner.Parts.{Placed};
ghost use Rattle.output_steps.specs.Inner.Given.{Summed};

use interface::types::{EntryParts, ShaderStage};

// The codes of a call, but for the mode, once they are known to be good. A topology of 5 is none. It stays a number: the steps answer for any,
// and a caller may give any.
#[derive(Clone, Copy, Debug, PartialEq, Eq)]
pub struct Request {
    pub stage: ShaderStage,
    pub topology: u32,
    pub dual_source: bool,
    pub depth: bool,
}

// What stands among varyings: local ones, the slots of clip distances and of other built-ins, the highest location plus 1, fragment depth, a primitive index.
#[derive(Clone, Copy, Debug, PartialEq, Eq)]
pub struct Summary {
    pub locals: u32,
    pub clip_slots: u32,
    pub built_in_slots: u32,
    pub reach: u32,
    pub depth: bool,
    pub primitive: bool,
}

// An entry point: the pack that it stands in, where its parts stand, and what stands among its outputs.
#[derive(Clone, Copy)]
pub struct EntryPoint<'a> {
    pub pack: &'a [u32],
    pub parts: EntryParts,
    pub summary: Summary,
    pub ghost placed: { Placed pack.now parts },
    pub ghost summed: { Summed pack.now parts summary },
}
