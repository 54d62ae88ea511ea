// A layout list: whether it is one, what it holds, a new entry, and a stage joined to one.
ghost use Rattle.std.specs.Prelude.{◌≡◌, true, false, ◌+◌, ◌*◌, ◌<◌, ◌≤◌, length, take};
ghost use Rattle.word.specs.Choice.{pick};
ghost use Rattle.word.specs.Words.{word_at, of_kind};
ghost use Rattle.bindings.specs.Format.{place_of, place_word, size_limit, binding_type_of, binding_code, least_size_of, entry_width, parts_well_formed, entry_of_parts};
ghost use Rattle.interface.specs.Format.{stage_code};
ghost use Rattle.layouts.specs.Meaning.{find_entry, entry_has, entry_nth, room_for_entry, pushed, joined};
ghost use Rattle.places.specs.Places.{found_below};
ghost use Rattle.places.specs.Records.{each};
ghost use Rattle.layouts.specs.Format.{entry_good, entry_fits, layout_head, layout_well_formed, decode_layout, encode_layout, used_words};

use crate::visibility::join_bit;
use bindings::entry_words::words_well_formed;
use bindings::sizes::{size_at, size_word};
use interface::types::ShaderStage;
use places::heads::{counted, short_enough};
use places::places::Records;
use places::stores::push_record;
use word::{content, index, kind, word};

// How many words an entry has.
const ENTRY_WIDTH: usize = 4;

// The kind, at most eight groups, and as many entries within the words as are counted.
fn layout_head(l: &[u32]) -> bool
    ensures { result ≡ layout_head l.now }
{
    let w = word(l, 0);
    if kind(w) != 17 {
        return false;
    }
    if 8 < w / 0x1_0000 % 0x800 {
        return false;
    }
    let n = (w % 0x1_0000) as usize;
    1 + ENTRY_WIDTH * n <= l.len()
}

// Whether an entry stands at the start of words, with its group below the count.
fn entry_good(entry: &[u32], groups: u32) -> bool
    requires { entry_width ≤ length entry.now }
    ensures { result ≡ entry_good groups entry.now }
{
    words_well_formed(entry[0], entry[1], entry[2], entry[3]) && entry[0] / 0x80_0000 % 16 < groups
}

fn entries_good(entries: &Records<'_, ENTRY_WIDTH>, groups: u32) -> bool
    ensures { result ≡ each entry_width (entry_good groups) entries.now.n entries.now.words.now }
{
    for i in 0..entries.n as u32 {
        if !entry_good(&entries.words[ENTRY_WIDTH * i as usize..], groups) {
            return false;
        }
    }
    true
}

// Whether words are a layout list.
pub fn layout_well_formed(l: &[u32]) -> bool
    ensures { result ≡ layout_well_formed l.now }
{
    if !short_enough(l) {
        return false;
    }
    if !layout_head(l) {
        return false;
    }
    let n = counted(l);
    let entries = Records::<ENTRY_WIDTH> { words: &l[1..], n };
    if !entries_good(&entries, group_count(l)) {
        return false;
    }
    entries.distinct_places()
}

pub fn group_count(l: &[u32]) -> u32
    ensures { result ≡ (decode_layout l.now).groups }
{
    word(l, 0) / 0x1_0000 % 0x800
}

// How many words are in use, as far as there are any.
pub fn used_words(l: &[u32]) -> usize
    ensures words { take result l.now ≡ used_words l.now }
    ensures within { (result ≤ length l.now) × (result ≡ length (take result l.now)) }
    ensures value { result ≡ length (used_words l.now) }
{
    let n = 1 + ENTRY_WIDTH * (index(l, 0) % 0x1_0000);
    n.min(l.len())
}

// A layout list that is lent for reading.
#[derive(Clone, Copy)]
pub struct LayoutList<'a> {
    pub words: &'a [u32],
    pub ghost well_formed: { layout_well_formed words.now ≡ true },
}

impl LayoutList<'_> {
    // The position of the entry at the place that a word tells.
    pub fn find_entry_word(&self, place: u32) -> Option<usize>
        ensures value { result ≡ find_entry (place_of place) (decode_layout self.now.words.now) }
        ensures below { found_below (length (decode_layout self.now.words.now).entries) result ≡ true }
    {
        let n = counted(self.words);
        let entries = Records::<ENTRY_WIDTH> {
            words: &self.words[1..],
            n,
        };
        entries.find_word(0x2000_0000 + content(place))
    }

    // The same where a position is likely to have the entry: that one is tried first.
    pub fn find_entry_near(&self, place: u32, near: usize) -> Option<usize>
        ensures value { result ≡ find_entry (place_of place) (decode_layout self.now.words.now) }
        ensures below { found_below (length (decode_layout self.now.words.now).entries) result ≡ true }
    {
        let n = counted(self.words);
        let entries = Records::<ENTRY_WIDTH> {
            words: &self.words[1..],
            n,
        };
        entries.find_near(content(place), near)
    }

    // A word of the entry at a position.
    fn entry_word(&self, index: usize, k: usize) -> u32
        requires { (index < length (decode_layout self.now.words.now).entries) × (k < entry_width) }
        ensures { result ≡ word_at self.now.words.now (1 + entry_width * index + k) }
    {
        self.words[1 + ENTRY_WIDTH * index + k]
    }

    // The word of the place of the entry at a position.
    pub fn entry_place(&self, index: usize) -> u32
        requires { index < length (decode_layout self.now.words.now).entries }
        ensures { result ≡ place_word (entry_nth (decode_layout self.now.words.now).entries index).bind }
    {
        self.entry_word(index, 0)
    }

    // The type word of the entry at a position: with the entry's least size it means the entry's type.
    pub fn entry_type(&self, index: usize) -> u32
        requires { index < length (decode_layout self.now.words.now).entries }
        ensures value { result ≡ of_kind 18 (binding_code (entry_nth (decode_layout self.now.words.now).entries index).ty) }
        ensures meaning { binding_type_of result (least_size_of (entry_nth (decode_layout self.now.words.now).entries index).ty)
            ≡ (entry_nth (decode_layout self.now.words.now).entries index).ty }
    {
        self.entry_word(index, 1)
    }

    // The least size of the entry at a position.
    pub fn entry_least(&self, index: usize) -> u64
        requires { index < length (decode_layout self.now.words.now).entries }
        ensures { result ≡ least_size_of (entry_nth (decode_layout self.now.words.now).entries index).ty }
    {
        size_at(self.words, 1 + ENTRY_WIDTH * index + 2)
    }

    // The visibility of the entry at a position.
    pub fn entry_visibility(&self, index: usize) -> u32
        requires { index < length (decode_layout self.now.words.now).entries }
        ensures { result ≡ (entry_nth (decode_layout self.now.words.now).entries index).visibility }
    {
        content(self.entry_word(index, 3))
    }
}

// A new entry at the end, by the words of its place, type and visibility and its least size, or nothing where the free room is too small.
// That the list is well formed stays a clause: the toolchain proves no struct that holds a list lent for writing with a ghost field on it.
pub fn push_entry(l: &mut [u32], place: u32, ty: u32, least: u64, visibility: u32) -> bool
    requires well_formed { layout_well_formed l.old ≡ true }
    requires parts { (least < size_limit) × (parts_well_formed place ty least visibility ≡ true) }
    requires fits { entry_fits (decode_layout l.old).groups (entry_of_parts place ty least visibility) ≡ true }
    requires place_free { entry_has (entry_of_parts place ty least visibility).bind (decode_layout l.old).entries ≡ false }
    ensures value { result ≡ room_for_entry (decode_layout l.old) }
    ensures encoded { l.new
        ≡ encode_layout (pick result (pushed (decode_layout l.old) (entry_of_parts place ty least visibility)) (decode_layout l.old)) }
    ensures decoded { decode_layout l.new
        ≡ pick result (pushed (decode_layout l.old) (entry_of_parts place ty least visibility)) (decode_layout l.old) }
    ensures still_well_formed { layout_well_formed l.new ≡ true }
{
    push_record(l, [place, ty, size_word(least), visibility])
}

// A stage's bit joined to the visibility of the entry at a position.
pub fn join_visibility(l: &mut [u32], index: usize, stage: ShaderStage)
    requires well_formed { layout_well_formed l.old ≡ true }
    requires index_in_bounds { index < length (decode_layout l.old).entries }
    ensures encoded { l.new ≡ encode_layout (joined (stage_code stage) (decode_layout l.old) index) }
    ensures decoded { decode_layout l.new ≡ joined (stage_code stage) (decode_layout l.old) index }
    ensures still_well_formed { layout_well_formed l.new ≡ true }
{
    let at = 1 + ENTRY_WIDTH * index + 3;
    let visibility = join_bit(content(word(l, at)), stage);
    l[at] = 0x9800_0000 + visibility;
}
