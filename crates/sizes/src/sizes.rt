// A size list: whether it is one, and a size recorded.
ghost use Rattle.std.specs.Prelude.{◌≡◌, true, false, ◌+◌, ◌*◌, ◌<◌, ◌≤◌, max, length, set};
ghost use Rattle.word.specs.Words.{word_at};
ghost use Rattle.bindings.specs.Format.{place_well_formed, place_of, size_limit};
ghost use Rattle.sizes.specs.Meaning.{size_has, size_fits, recorded, size_record_width};
ghost use Rattle.places.specs.Records.{each};
ghost use Rattle.sizes.specs.Format.{size_good, sizes_head, sizes_well_formed, decode_sizes, encode_sizes};
ghost use Rattle.sizes.specs.Inner.Near.{find_size, note_next};

use bindings::sizes::size_word;
use places::heads::{counted, short_enough};
use places::places::Records;
use places::stores::push_record;
use word::{content, kind, word};

// How many words a record has.
const SIZE_RECORD_WIDTH: usize = 2;

// The kind, no unnamed bits, and as many records within the words as are counted.
fn sizes_head(l: &[u32]) -> bool
    ensures { result ≡ sizes_head l.now }
{
    let w = word(l, 0);
    if kind(w) != 20 {
        return false;
    }
    if w / 0x1_0000 % 0x800 != 0 {
        return false;
    }
    let n = (w % 0x1_0000) as usize;
    1 + SIZE_RECORD_WIDTH * n <= l.len()
}

// Whether a place and a size of at least 1 stand at the start of words.
fn size_good(words: &[u32]) -> bool
    requires { size_record_width ≤ length words.now }
    ensures { result ≡ size_good words.now }
{
    if kind(words[0]) != 4 {
        return false;
    }
    let size = words[1];
    size / 0x800_0000 == 6 && size % 0x800_0000 != 0
}

fn sizes_good(records: &Records<'_, SIZE_RECORD_WIDTH>) -> bool
    ensures { result ≡ each size_record_width size_good records.now.n records.now.words.now }
{
    for i in 0..records.n as u32 {
        if !size_good(&records.words[SIZE_RECORD_WIDTH * i as usize..]) {
            return false;
        }
    }
    true
}

// Whether words are a size list.
pub fn sizes_well_formed(l: &[u32]) -> bool
    ensures { result ≡ sizes_well_formed l.now }
{
    if !short_enough(l) {
        return false;
    }
    if !sizes_head(l) {
        return false;
    }
    let n = counted(l);
    let records = Records::<SIZE_RECORD_WIDTH> { words: &l[1..], n };
    if !sizes_good(&records) {
        return false;
    }
    records.distinct_places()
}

// A new record at the end, or nothing where the free room is too small.
fn push_size(s: &mut [u32], place: u32, size: u64) -> bool
    requires well_formed { sizes_well_formed s.old ≡ true }
    requires place_and_size { (place_well_formed place ≡ true) × (size < size_limit) }
    requires place_free { size_has (place_of place) (decode_sizes s.old).records ≡ false }
    ensures value { result ≡ size_fits (place_of place) (decode_sizes s.old) }
    ensures encoded { s.new ≡ encode_sizes (recorded (place_of place) size (decode_sizes s.old)) }
{
    push_record(s, [place, size_word(size)])
}

// The larger of a word and the one at a position stored there.
fn raise_word(l: &mut [u32], at: usize, w: u32)
    requires { at < length l.old }
    ensures { l.new ≡ set l.old at (max (word_at l.old at) w) }
{
    if l[at] < w {
        l[at] = w;
    }
}

// A size recorded at the place of a word: the larger where the place has a record, else a new one where there is room.
// Records mostly stand in the order in which they are asked for: the position behind the one that was found last is tried first.
pub fn record_size(s: &mut [u32], place: u32, size: u64, next: &mut usize) -> bool
    requires well_formed { sizes_well_formed s.old ≡ true }
    requires place_and_size { (place_well_formed place ≡ true) × (1 ≤ size) × (size < size_limit) }
    ensures value { result ≡ size_fits (place_of place) (decode_sizes s.old) }
    ensures encoded { s.new ≡ encode_sizes (recorded (place_of place) size (decode_sizes s.old)) }
    ensures decoded { decode_sizes s.new ≡ recorded (place_of place) size (decode_sizes s.old) }
    ensures still_well_formed { sizes_well_formed s.new ≡ true }
    ensures next_noted { next.new ≡ note_next (find_size (place_of place) (decode_sizes s.old)) next.old }
{
    let n = counted(s);
    let records = Records::<SIZE_RECORD_WIDTH> { words: &s[1..], n };
    match records.find_near(content(place), *next) {
        Some(index) => {
            *next = index + 1;
            raise_word(s, SIZE_RECORD_WIDTH * index + 2, size_word(size));
            true
        }
        None => push_size(s, place, size),
    }
}
