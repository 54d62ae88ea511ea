// The resources of a pack, each at its position in a table.
ghost use Rattle.std.specs.Prelude.{◌≡◌, true, ◌<◌, length};
ghost use Rattle.bindings.specs.Format.{place_of, resource, resource_encodable};
ghost use Rattle.resource_steps.specs.Inner.Given.{resource_table, Inside, each_encodable};
ghost use Rattle.resource_steps.specs.Resources.{resource_nth};

use crate::types::ResourceWords;
use bindings::sizes::size_at;
use interface::reads::position_at;
use std::marker::Model;

#[derive(Drop)]
pub struct ResourceTable<'a> {
    pack: &'a [u32],
    offsets: &'a [u16],
}

impl<'a> Model for ResourceTable<'a> {
    ghost use Rattle.std.specs.Prelude.{List};
    ghost use Rattle.bindings.specs.declared.types.Resource.{Resource};
    ghost use Rattle.resource_steps.specs.Inner.Given.{resource_table};
    ghost use Rattle.resource_steps.specs.Inner.Given as Given;

    ghost Value = { List Resource };

    ghost view = { λ t. resource_table t.pack.now t.offsets.now };

    ghost invariant = { λ t. Given.Inside t.pack.now t.offsets.now };
}

impl<'a> ResourceTable<'a> {
    pub fn new(pack: &'a [u32], offsets: &'a [u16]) -> Self
        requires { Inside pack.now offsets.now }
        ensures { result ≡ resource_table pack.now offsets.now }
    {
        Self { pack, offsets }
    }

    // The word that tells the place of the resource of an index.
    pub(crate) fn place(&self, i: u32) -> u32
        requires { i < length self.now }
        ensures { place_of result ≡ (resource_nth self.now i).bind }
    {
        let at = usize::from(position_at(self.offsets, i as usize));
        self.pack[at]
    }

    // The words of the resource of an index.
    fn words(&self, i: u32) -> ResourceWords
        requires in_bounds { i < length self.now }
        requires encodable { resource_encodable (resource_nth self.now i) ≡ true }
        ensures { resource result.place result.ty result.size ≡ resource_nth self.now i }
    {
        let at = usize::from(position_at(self.offsets, i as usize));
        ResourceWords {
            place: self.pack[at],
            ty: self.pack[at + 1],
            size: size_at(self.pack, at + 2),
        }
    }
}

// A table of resources that a pack can hold.
#[derive(Drop)]
pub struct Resources<'a> {
    pub table: ResourceTable<'a>,
    pub ghost encodable: { each_encodable table ≡ true },
}

impl Resources<'_> {
    // The words of the resource of an index.
    #[tactic(auto, using(crate::proofs::ResourceParts::listed_encodable))]
    pub(crate) fn words(&self, i: u32) -> ResourceWords
        requires { i < length self.now.table }
        ensures { resource result.place result.ty result.size ≡ resource_nth self.now.table i }
    {
        self.table.words(i)
    }
}
