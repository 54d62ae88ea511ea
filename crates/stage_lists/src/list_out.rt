// What a stage hands on, written into the list out: its variables by rising location.
ghost use Rattle.std.specs.Prelude.{◌≡◌, true, [], ◌∷◌, ◌+◌, ◌*◌, ◌<◌, ◌≤◌, ◌^◌, length, take, drop, set};
ghost use Rattle.std.specs.Int.{from_bool};
ghost use Rattle.word.specs.Words.{word_at, kind_of, content_of};
ghost use Rattle.word.specs.Lists.{flat};
ghost use Rattle.varying.specs.Format.{var_well_formed, var_of, located_encodable, located_words, payload_encodable};
ghost use Rattle.stage_lists.specs.Meaning.{rising, insert, inserted};
ghost use Rattle.places.specs.Records.{put, each};
ghost use Rattle.stage_lists.specs.Format.{located_good, read_varyings, out_well_formed, decode_stage, encode_stage};

use crate::out_words::{payload_word, primitive_word, var_word};
use crate::stage_io::location_at;
use places::stores::store;

// The head and the payload of a list without variables. The answer is the head.
pub fn begin_out(out: &mut [u32], primitive: Option<bool>, payload: Option<u32>) -> u32
    requires in_bounds { 2 ≤ length out.old }
    requires payload_fits { payload_encodable payload ≡ true }
    ensures words { out.new ≡ encode_stage (record { primitive = primitive; payload = payload; varyings = []; room = drop 2 out.old }) }
    ensures decoded { decode_stage (set out.new 0 result) ≡ record { primitive = primitive; payload = payload; varyings = []; room = drop 2 out.old } }
    ensures still_well_formed { out_well_formed (set out.new 0 result) ≡ true }
    ensures head { result ≡ word_at out.new 0 }
{
    let head = primitive_word(primitive);
    let second = payload_word(payload);
    store(out, 0, [head, second]);
    head
}

// Two words written before as many records, each of which moves up by one.
fn shift(out: &mut [u32], from: usize, n: usize, first: u32, second: u32)
    requires { (from + 2 * n + 2 ≤ length out.old) × (from + 2 * n < 2 ^ 60) }
    ensures { out.new ≡ put out.old from (first ∷ second ∷ take (2 * n) (drop from out.old)) }
{
    // not `copy_within`: it hands on pairs with a pointer, which tools/board/build refuses
    let mut a = first;
    let mut b = second;
    for i in 0..n {
        let at = from + 2 * i;
        let c = out[at];
        let d = out[at + 1];
        store(out, at, [a, b]);
        a = c;
        b = d;
    }
    store(out, from + 2 * n, [a, b]);
}

// A variable put into its place among as many: whether its location is new.
fn place(out: &mut [u32], n: usize, location: u32, var: u32) -> bool
    requires n_in_bounds { (2 + 2 * n + 2 ≤ length out.old) × (n < 0x1_0000) × (each 2 located_good n (drop 2 out.old) ≡ true) }
    requires variable { (location < 2 ^ 27) × (var_well_formed var ≡ true) }
    ensures words { out.new ≡ put out.old 2 (flat located_words (insert (record { location = location; var = var_of var }) (read_varyings n (drop 2 out.old)))) }
    ensures count { length (insert (record { location = location; var = var_of var }) (read_varyings n (drop 2 out.old))) ≡ n + from_bool result }
{
    for i in 0..n {
        let at = 2 + 2 * i;
        let here = location_at(out, at);
        if location < here {
            shift(out, at, n - i, 0x6000_0000 + location, var);
            return true;
        }
        if location == here {
            store(out, at, [0x6000_0000 + location, var]);
            return false;
        }
    }
    store(out, 2 + 2 * n, [0x6000_0000 + location, var]);
    true
}

// The same by its first word, where the locations rise: one above the last, or above the head where there is none, needs no search.
fn place_last(out: &mut [u32], n: usize, first: u32, var: u32) -> bool
    requires n_in_bounds { (2 + 2 * n + 2 ≤ length out.old) × (n < 0x1_0000) × (each 2 located_good n (drop 2 out.old) ≡ true) }
    requires variable { (kind_of first ≡ 12) × (var_well_formed var ≡ true) × (rising (read_varyings n (drop 2 out.old)) ≡ true) }
    ensures words { out.new ≡ put out.old 2 (flat located_words (insert (record { location = content_of first; var = var_of var }) (read_varyings n (drop 2 out.old)))) }
    ensures count { length (insert (record { location = content_of first; var = var_of var }) (read_varyings n (drop 2 out.old))) ≡ n + from_bool result }
{
    if out[2 * n] < first {
        store(out, 2 + 2 * n, [first, var]);
        return true;
    }
    place(out, n, first % 0x800_0000, var)
}

// The variable of two words put into the list by its location; of equal locations the last is kept. The head is handed over, and the answer is the new one.
pub fn insert_words(out: &mut [u32], head: u32, first: u32, var: u32) -> u32
    requires well_formed { out_well_formed (set out.old 0 head) ≡ true }
    requires variable { (kind_of first ≡ 12) × (located_encodable (record { location = content_of first; var = var_of var }) ≡ true) }
    requires room { (length (decode_stage (set out.old 0 head)).varyings < 63) × (2 ≤ length (decode_stage (set out.old 0 head)).room) }
    ensures encoded { set out.new 0 result ≡ encode_stage (inserted (record { location = content_of first; var = var_of var }) (decode_stage (set out.old 0 head))) }
    ensures decoded { decode_stage (set out.new 0 result) ≡ inserted (record { location = content_of first; var = var_of var }) (decode_stage (set out.old 0 head)) }
    ensures still_well_formed { out_well_formed (set out.new 0 result) ≡ true }
    ensures words { out.new ≡ set (encode_stage (inserted (record { location = content_of first; var = var_of var }) (decode_stage (set out.old 0 head)))) 0 (word_at out.old 0) }
    ensures head { result ≡ word_at (encode_stage (inserted (record { location = content_of first; var = var_of var }) (decode_stage (set out.old 0 head)))) 0 }
{
    let n = (head % 0x1_0000) as usize;
    let second = var_word(var);
    head + u32::from(place_last(out, n, first, second))
}
