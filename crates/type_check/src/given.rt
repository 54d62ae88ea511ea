// What a type gives with a binding, by what is noted of it.
ghost use Rattle.std.specs.Prelude.{◌≡◌, ◌<◌};
ghost use Rattle.type_check.specs.Inner.Notes.{bound_note, array_note, given_note};

use crate::clips::is_clip;
use crate::notes::Note;
use crate::types::TypeTable;

// A scalar, vector or matrix with a binding that begins with a word.
fn bound_note(depth: u8, w: u32) -> Note
    ensures { result ≡ bound_note depth w }
{
    match word::kind(w) {
        12 => Note::new(depth, 1, 2),
        14 => Note::new(depth, 1, 1),
        _ => Note::new(depth, 0, 0),
    }
}

// An array with such a binding.
#[tactic(auto, unfolding(word::specs::Choice::yes))]
fn array_note(depth: u8, w: u32) -> Note
    ensures { result ≡ array_note depth w }
{
    if is_clip(w) {
        Note::new(depth, 1, 1)
    } else {
        Note::new(depth, 0, 0)
    }
}

// The type of a number with such a binding.
#[tactic(auto, unfolding(crate::specs::Inner::Notes::given_note))]
pub fn given_note(types: &TypeTable<'_>, n: usize, w: u32) -> Note
    requires { n < 256 }
    ensures { result ≡ given_note types.now.words.now types.now.notes.now n w }
{
    let note = types.note(n);
    match word::kind(word::word(types.words, types.start(n))) {
        22 => bound_note(note.depth, w),
        23 => array_note(note.depth, w),
        _ => note,
    }
}
