// An accepted pack.
ghost use Rattle.std.specs.Prelude.{◌≡◌};
ghost use Rattle.interface.specs.Format.{decode, decoded_number};
ghost use Rattle.interface.specs.Inner.Parts.{Heads};

// The words of a pack that index_pack accepted, and the positions of its entry points. The words and no `AcceptedPack`: a struct of that and of
// the table would need a lifetime for each.
#[derive(Clone, Copy)]
pub struct Module<'a> {
    pub pack: &'a [u32],
    pub heads: &'a [u16],
    pub ghost accepted: { decoded_number (decode pack.now) ≡ 0 },
    pub ghost heads_known: { Heads pack.now heads.now },
}
