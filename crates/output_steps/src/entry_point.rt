// What an entry point has, read from its words.
ghost use Rattle.std.specs.Prelude.{◌≡◌};
ghost use Rattle.interface.specs.Inner.Listed.{listed};
ghost use Rattle.interface.specs.Inner.Parts.{Placed};
ghost use Rattle.output_steps.specs.Inner.Stands.{meant};

use crate::outputs::summary;
use crate::types::EntryPoint;
use interface::parts::Counts;
use interface::reads::topology_at;
use interface::types::{EntryParts, EntryPointMeshInfo, WorkgroupSize};
use interface::varyings::Varyings;
use word::{content, word};

impl<'a> EntryPoint<'a> {
    // The entry point whose parts stand at these positions.
    pub fn new(pack: &'a [u32], parts: EntryParts) -> Self
        requires { Placed pack.now parts }
        ensures { (result.pack.now ≡ pack.now) × (result.parts ≡ parts) }
    {
        let outputs = Varyings {
            pack,
            from: parts.outputs,
            n: Counts::of(pack[parts.counts]).outputs,
        };
        let summary = summary(&outputs);
        Self {
            pack,
            parts,
            summary,
        }
    }

    // Its inputs.
    pub fn inputs(&self) -> Varyings<'a>
        ensures { listed result ≡ (meant self.now).inputs }
    {
        Varyings {
            pack: self.pack,
            from: self.parts.inputs,
            n: Counts::of(self.pack[self.parts.counts]).inputs,
        }
    }

    // Its outputs.
    pub(crate) fn outputs(&self) -> Varyings<'a>
        ensures { listed result ≡ (meant self.now).outputs }
    {
        Varyings {
            pack: self.pack,
            from: self.parts.outputs,
            n: Counts::of(self.pack[self.parts.counts]).outputs,
        }
    }

    // The size of its workgroup.
    pub fn workgroup(&self) -> WorkgroupSize
        ensures { result ≡ (meant self.now).workgroup }
    {
        let pack = self.pack;
        let at = self.parts.workgroup;
        WorkgroupSize {
            x: content(pack[at]),
            y: content(pack[at + 1]),
            z: content(pack[at + 2]),
        }
    }

    // Its task payload.
    pub fn payload(&self) -> Option<u32>
        ensures { result ≡ (meant self.now).payload }
    {
        varying::payload_of(self.pack[self.parts.workgroup + 3])
    }

    // Its mesh record.
    pub fn mesh(&self) -> Option<EntryPointMeshInfo>
        ensures { result ≡ (meant self.now).mesh }
    {
        let pack = self.pack;
        if pack[self.parts.head] / 2 % 2 != 1 {
            return None;
        }
        let at = self.parts.workgroup + 4;
        let info = EntryPointMeshInfo {
            max_vertices: content(word(pack, at)),
            max_primitives: content(word(pack, at + 1)),
            primitive_topology: topology_at(content(word(pack, at + 2))),
        };
        Some(info)
    }
}
