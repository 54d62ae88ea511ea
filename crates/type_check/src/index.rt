// The check of a type list, which notes each type as it passes.
ghost use Rattle.std.specs.Prelude.{◌≡◌, true, [], ◌≤◌, ◌^◌, IfSome, IsSome, length, drop};
ghost use Rattle.word.specs.Words.{word_at, content_of};
ghost use Rattle.word.specs.Parse.{behind, rest_of, several};
ghost use Rattle.interface.specs.Format.{index_well_formed};
ghost use Rattle.type_lists.specs.Format.{read_member, head_well_formed, read_type, read_types, count_well_formed};
ghost use Rattle.type_check.specs.Inner.Positions.{earlier_of, declared, listed};
ghost use Rattle.type_check.specs.Inner.Notes.{reached_at, member_reached, members_reached, struct_of, type_reached, Noted};

use crate::bound::binding_next;
use crate::clips::binding_good;
use crate::given::given_note;
use crate::members::member_type;
use crate::notes::{Note, Reading, TypeNote};
use crate::types::{TypeTable, Types};

// Whether a word names a type below a number.
fn index_well_formed(w: u32, count: usize) -> bool
    ensures { result ≡ index_well_formed count w }
{
    word::kind(w) == 5 && (word::content(w) as usize) < count
}

// The position behind a member of the type behind earlier ones.
fn member_next(earlier: &Types<'_>, at: usize) -> Option<usize>
    requires { at ≤ length earlier.now.table.words.now }
    ensures position { rest_of earlier.now.table.words.now result
        ≡ behind (read_member (earlier_of earlier.now.table.words.now earlier.now.count) (drop at earlier.now.table.words.now)) }
    ensures within { IfSome result (λ next. next ≤ length earlier.now.table.words.now) }
{
    let words = earlier.table.words;
    let w = word::word(words, at);
    if !index_well_formed(w, earlier.count) {
        return None;
    }
    let next = binding_next(words, at + 1)?;
    let second = word::word(words, at + 1);
    if !binding_good(&earlier.table, word::content(w) as usize, second) {
        return None;
    }
    Some(next)
}

// A member of the type behind earlier ones.
fn member_read(earlier: &Types<'_>, at: usize) -> Option<Reading>
    requires { at ≤ length earlier.now.table.words.now }
    ensures reached { reached_at earlier.now.table.words.now result
        ≡ member_reached (earlier_of earlier.now.table.words.now earlier.now.count) (read_member (earlier_of earlier.now.table.words.now earlier.now.count) (drop at earlier.now.table.words.now)) }
    ensures within { IfSome result (λ r. r.next ≤ length earlier.now.table.words.now) }
{
    let next = member_next(earlier, at)?;
    let m = member_type(earlier.table.words, at);
    let note = given_note(&earlier.table, m, word::word(earlier.table.words, at + 1));
    Some(Reading { next, note })
}

// So many members of the type behind earlier ones.
fn members_read(earlier: &Types<'_>, from: usize, count: u32) -> Option<Reading>
    requires { from ≤ length earlier.now.table.words.now }
    ensures reached { reached_at earlier.now.table.words.now result
        ≡ members_reached (earlier_of earlier.now.table.words.now earlier.now.count) (several count (read_member (earlier_of earlier.now.table.words.now earlier.now.count)) (drop from earlier.now.table.words.now)) }
    ensures within { IfSome result (λ r. r.next ≤ length earlier.now.table.words.now) }
{
    let mut at = from;
    let mut total = Note::NONE;
    for _k in 0..count {
        let r = member_read(earlier, at)?;
        total = total.joined(r.note);
        at = r.next;
    }
    Some(Reading {
        next: at,
        note: total,
    })
}

// Whether a word begins the type of number n.
fn head_well_formed(w: u32, n: usize) -> bool
    ensures { result ≡ head_well_formed n w }
{
    match word::kind(w) {
        22 => w / 0x400 % 0x2_0000 == 0 && numeric::type_words::type_well_formed(w),
        23 => w / 0x1_0000 % 0x800 == 0 && ((w % 0x1_0000) as usize) < n,
        24 => w / 0x1_0000 % 0x800 == 0,
        _ => false,
    }
}

// A struct of so many members.
fn struct_read(earlier: &Types<'_>, from: usize, count: u32) -> Option<Reading>
    requires { from ≤ length earlier.now.table.words.now }
    ensures reached { reached_at earlier.now.table.words.now result
        ≡ type_reached (earlier_of earlier.now.table.words.now earlier.now.count) (struct_of (several count (read_member (earlier_of earlier.now.table.words.now earlier.now.count)) (drop from earlier.now.table.words.now))) }
    ensures within { IfSome result (λ r. r.next ≤ length earlier.now.table.words.now) }
{
    let r = members_read(earlier, from, count)?;
    Some(Reading {
        next: r.next,
        note: r.note.deeper(),
    })
}

// The type behind earlier ones.
fn type_read(earlier: &Types<'_>, at: usize) -> Option<Reading>
    requires { at ≤ length earlier.now.table.words.now }
    ensures reached { reached_at earlier.now.table.words.now result
        ≡ type_reached (earlier_of earlier.now.table.words.now earlier.now.count) (read_type (earlier_of earlier.now.table.words.now earlier.now.count) (drop at earlier.now.table.words.now)) }
    ensures within { IfSome result (λ r. r.next ≤ length earlier.now.table.words.now) }
{
    let words = earlier.table.words;
    let w = word::word(words, at);
    if !head_well_formed(w, earlier.count) {
        return None;
    }
    match word::kind(w) {
        22 => Some(Reading {
            next: at + 1,
            note: Note::new(0, 1, 1),
        }),
        23 => {
            if word::kind(word::word(words, at + 1)) != 6 {
                return None;
            }
            let element = earlier.table.note((w % 0x1_0000) as usize);
            Some(Reading {
                next: at + 2,
                note: Note::new(element.depth, 1, 1),
            })
        }
        _ => struct_read(earlier, at + 1, w % 0x1_0000),
    }
}

// The position behind so many types. The table gets what is noted of each.
fn types_read(words: &[u32], count: usize, notes: &mut [TypeNote; 256]) -> Option<usize>
    requires { (1 ≤ length words.now) × (length words.now ≤ 1024) × (count ≤ 256) × (length notes.old ≡ 256) }
    ensures position { rest_of words.now result ≡ behind (read_types count [] (drop 1 words.now)) }
    ensures noted { IsSome result → Noted (earlier_of words.now count) words.now notes.new }
{
    let mut at: usize = 1;
    for i in 0..count {
        let table = TypeTable {
            words,
            notes: &*notes,
        };
        let earlier = Types { table, count: i };
        let r = type_read(&earlier, at)?;
        notes[i] = TypeNote {
            start: at as u16,
            note: r.note,
        };
        at = r.next;
    }
    Some(at)
}

// Whether a word is a count of types.
fn count_well_formed(w: u32) -> bool
    ensures { result ≡ count_well_formed w }
{
    word::kind(w) == 21 && word::content(w) <= 256
}

// Whether a list of types is accepted. The table, which is lent, gets what is noted of each, so there is nothing more to answer.
pub fn index_types(types: &[u32], notes: &mut [TypeNote; 256]) -> bool
    requires { length notes.old ≡ 256 }
    ensures value { result ≡ listed types.now }
    ensures noted { result ≡ true → Noted (declared types.now) types.now notes.new }
    ensures counted { result ≡ true → length (declared types.now) ≡ content_of (word_at types.now 0) }
    ensures all_read { result ≡ true → declared types.now ≡ earlier_of types.now (content_of (word_at types.now 0)) }
{
    if 1024 < types.len() {
        return false;
    }
    let w = word::word(types, 0);
    if !count_well_formed(w) {
        return false;
    }
    types_read(types, word::content(w) as usize, notes).is_some()
}
