// The varyings that an entry point lists.
ghost use Rattle.std.specs.Prelude.{◌<◌, ◌≤◌, length};
ghost use Rattle.interface.specs.Inner.Parts.{varyings_end};

// As many as are counted, from a position of an accepted pack on.
#[derive(Clone, Copy)]
pub struct Varyings<'a> {
    pub pack: &'a [u32],
    pub from: usize,
    pub n: usize,
    pub ghost inside: { varyings_end pack.now n from < length pack.now },
    pub ghost short: { length pack.now ≤ 4096 },
    pub ghost few: { n ≤ 63 },
}
