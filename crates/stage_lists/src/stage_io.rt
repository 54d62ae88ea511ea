// What the stage before provides: its variables by rising location, its payload and its primitive index.
ghost use Rattle.std.specs.Prelude.{◌≡◌, true, ◌<◌, ◌≤◌, ◌+◌, ◌*◌, ◌^◌, length, drop};
ghost use Rattle.word.specs.Words.{word_at, content_of};
ghost use Rattle.varying.specs.Format.{var_well_formed};
ghost use Rattle.places.specs.Places.{found_below};
ghost use Rattle.stage_lists.specs.Meaning.{rising, varying_at};
ghost use Rattle.places.specs.Records.{each};
ghost use Rattle.stage_lists.specs.Format.{located_good, read_varyings, variable_found, stage_head, out_well_formed, stage_well_formed, decode_stage};
ghost use Rattle.stage_lists.specs.Inner.Found.{location_from};

use places::heads::{counted, short_enough};
use word::word;

// The head, the payload, and as many variables as are counted.
fn stage_head(l: &[u32]) -> bool
    ensures { result ≡ stage_head l.now }
{
    let w = word(l, 0);
    if w / 0x800_0000 != 11 {
        return false;
    }
    if 3 <= w / 0x200_0000 % 4 {
        return false;
    }
    if w / 0x1_0000 % 0x200 != 0 {
        return false;
    }
    let n = w % 0x1_0000;
    if 63 < n {
        return false;
    }
    if l.len() < 2 + 2 * (n as usize) {
        return false;
    }
    varying::payload_well_formed(word(l, 1))
}

// The location that stands at a position.
pub(crate) fn location_at(l: &[u32], at: usize) -> u32
    ensures value { result ≡ content_of (word_at l.now at) }
    ensures upper_bound { result < 2 ^ 27 }
{
    word::content(word(l, at))
}

fn located_good(words: &[u32], good: u32) -> bool
    requires in_bounds { 2 ≤ length words.now }
    requires good_variable { var_well_formed good ≡ true }
    ensures { result ≡ located_good words.now }
{
    varying::location_well_formed(words[0]) && varying::var_good(words[1], good)
}

// Whether each of as many variables has a location and a variable's word. The commonest is a vector of four f32.
fn varyings_good(varyings: &[u32], n: usize) -> bool
    requires { (n < 0x1_0000) × (2 * n ≤ length varyings.now) }
    ensures { result ≡ each 2 located_good n varyings.now }
{
    let mut good: u32 = 0x6800_0123;
    for i in 0..n {
        if !located_good(&varyings[2 * i..], good) {
            return false;
        }
        good = varyings[2 * i + 1];
    }
    true
}

// Whether each location is below the next.
fn rises(varyings: &[u32], n: usize) -> bool
    requires { (n < 0x1_0000) × (2 * n ≤ length varyings.now) }
    ensures { result ≡ rising (read_varyings n varyings.now) }
{
    for i in 1..n {
        if varyings[2 * i] % 0x800_0000 <= varyings[2 * (i - 1)] % 0x800_0000 {
            return false;
        }
    }
    true
}

// Whether words are a stage list, of whatever length.
pub fn out_well_formed(l: &[u32]) -> bool
    ensures { result ≡ out_well_formed l.now }
{
    if !stage_head(l) {
        return false;
    }
    let varyings = &l[2..];
    let n = counted(l);
    if !varyings_good(varyings, n) {
        return false;
    }
    rises(varyings, n)
}

// Whether words are a stage list.
pub fn stage_well_formed(l: &[u32]) -> bool
    ensures { result ≡ stage_well_formed l.now }
{
    short_enough(l) && out_well_formed(l)
}

// Where the word of the variable at a location stands, where all variables lie within the slice.
fn find_within(l: &[u32], n: usize, location: u32) -> Option<usize>
    requires n_bound { n < 0x1_0000 }
    requires n_in_bounds { 2 + 2 * n ≤ length l.now }
    ensures variable { variable_found l.now result ≡ varying_at location (read_varyings n (drop 2 l.now)) }
    ensures within { found_below (length l.now) result ≡ true }
    ensures value { result ≡ location_from location (read_varyings n (drop 2 l.now)) 3 }
{
    for i in 0..n as u32 {
        let index = i as usize;
        if l[2 + 2 * index] % 0x800_0000 == location {
            return Some(3 + 2 * index);
        }
    }
    None
}

// A stage list that is lent for reading, of whatever length.
#[derive(Clone, Copy)]
pub struct StageList<'a> {
    pub words: &'a [u32],
    pub ghost well_formed: { out_well_formed words.now ≡ true },
}

impl StageList<'_> {
    // Where the word of the variable at a location stands. The variable at a likely position is tried first.
    pub fn find_location(&self, location: u32, near: usize) -> Option<usize>
        ensures variable { variable_found self.now.words.now result ≡ varying_at location (decode_stage self.now.words.now).varyings }
        ensures within { found_below (length self.now.words.now) result ≡ true }
        ensures value { result ≡ location_from location (decode_stage self.now.words.now).varyings 3 }
    {
        let l = self.words;
        let n = counted(l);
        if near < n {
            if l[2 + 2 * near] % 0x800_0000 == location {
                return Some(3 + 2 * near);
            }
        }
        find_within(l, n, location)
    }
}

pub fn primitive_index(l: &[u32]) -> Option<bool>
    ensures { result ≡ (decode_stage l.now).primitive }
{
    match word(l, 0) / 0x200_0000 % 4 {
        0 => None,
        1 => Some(false),
        _ => Some(true),
    }
}

pub fn payload(l: &[u32]) -> Option<u32>
    ensures { result ≡ (decode_stage l.now).payload }
{
    varying::payload_of(word(l, 1))
}
