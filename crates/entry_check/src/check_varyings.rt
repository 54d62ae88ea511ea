// Varyings: a location and a variable, or a built-in.
ghost use Rattle.std.specs.Prelude.{◌≡◌, ◌≤◌, length, drop, IfSome};
ghost use Rattle.word.specs.Parse.{rest_of};
ghost use Rattle.interface.specs.Format.{built_in_well_formed};
ghost use Rattle.entry_check.specs.Inner.Walks.{varyings_behind};

// Whether a word is a built-in with a code below a number.
fn built_in_well_formed(w: u32, codes: u32) -> bool
    ensures { result ≡ built_in_well_formed codes w }
{
    w / 0x100 % 0x1_0000 == 0 && w / 0x100_0000 % 8 < codes && word::kind(w) == 14
}

// The position behind so many varyings, whose built-ins have codes below a number. Clip distances have code 4:
// among outputs (codes below 5) they may stand once, and among inputs (codes below 4) never.
pub(crate) fn varyings_next(body: &[u32], from: usize, n: u32, codes: u32) -> Option<usize>
    requires { (from ≤ length body.now) × (4 ≤ codes) × (codes ≤ 5) }
    ensures rest { rest_of body.now result ≡ varyings_behind n codes (drop from body.now) }
    ensures end { IfSome result (λ next. next ≤ length body.now) }
{
    let mut at = from;
    let mut below = codes;
    // The last variable, at first a vector of four 32-bit floats: most are alike, and the like is not tested again.
    let mut good: u32 = 0x6800_0123;
    for _ in 0..n {
        let w = word::word(body, at);
        if varying::location_well_formed(w) {
            let second = word::word(body, at + 1);
            if !varying::var_good(second, good) {
                return None;
            }
            good = second;
            at += 2;
        } else {
            if !built_in_well_formed(w, below) {
                return None;
            }
            // Bit 26 is set in code 4 alone.
            below -= w / 0x400_0000 % 2;
            at += 1;
        }
    }
    Some(at)
}
