// What passes between stages: a variable at a location, and the payload of a task stage.
#![tactic(auto)]

ghost use Rattle.std.specs.Prelude.{◌≡◌, true};
ghost use Rattle.varying.specs.Format.{var_well_formed, var_of, location_well_formed, payload_well_formed, payload_of};
ghost use Rattle.varying.specs.Rules.{same_payload};

use numeric::types::NumericType;

// Interpolation is 0 for none, 4 for per vertex and 1 to 3 for the others; sampling is 0 for none and 1 to 5.
// Both stay codes: only 0 and 4 have a name, and a stage check does no more than compare them.
#[derive(Clone, Copy, Debug, PartialEq, Eq)]
pub struct InterfaceVar {
    pub ty: NumericType,
    pub interpolation: u32,
    pub sampling: u32,
    pub per_primitive: bool,
}

// A variable at a location.
#[derive(Clone, Copy, Debug, PartialEq, Eq)]
pub struct Located {
    pub location: u32,
    pub var: InterfaceVar,
}

// Whether a word is a location.
pub fn location_well_formed(w: u32) -> bool
    ensures { result ≡ location_well_formed w }
{
    word::kind(w) == 12
}

// Whether a word is a variable: its type, interpolation, sampling and per-primitive bit.
pub fn var_well_formed(w: u32) -> bool
    ensures { result ≡ var_well_formed w }
{
    word::kind(w) == 13
        && w / 0x400 % 4 == 0
        && w / 0x8_0000 % 0x100 == 0
        && w / 0x1000 % 8 < 5
        && w / 0x8000 % 8 < 6
        && numeric::type_words::type_well_formed(w)
}

// The same where another word is known to be a variable: most of a list are alike, and the like is not tested again.
pub fn var_good(w: u32, good: u32) -> bool
    requires { var_well_formed good ≡ true }
    ensures { result ≡ var_well_formed w }
{
    w == good || var_well_formed(w)
}

// The variable that a word holds. No `From`: it takes the bits that are due, whatever the word's kind.
pub fn var_of(w: u32) -> InterfaceVar
    ensures { result ≡ var_of w }
{
    InterfaceVar {
        ty: numeric::type_words::type_of(w),
        interpolation: w / 0x1000 % 8,
        sampling: w / 0x8000 % 8,
        per_primitive: w / 0x4_0000 % 2 == 1,
    }
}

// Whether a word is a payload; an absent one has size 0.
pub fn payload_well_formed(w: u32) -> bool
    ensures { result ≡ payload_well_formed w }
{
    if word::kind(w) != 9 {
        return false;
    }
    if w / 0x400_0000 % 2 == 1 {
        return true;
    }
    w % 0x400_0000 == 0
}

// The payload that a word holds. No `From`, as above.
pub fn payload_of(w: u32) -> Option<u32>
    ensures { result ≡ payload_of w }
{
    if w / 0x400_0000 % 2 == 1 {
        return Some(w % 0x400_0000);
    }
    None
}

// Whether two stages have the same payload; one of 0 bytes is not an absent one.
pub fn same_payload(a: Option<u32>, b: Option<u32>) -> bool
    ensures { result ≡ same_payload a b }
{
    a == b
}
