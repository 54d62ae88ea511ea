// What resources need in either mode: the refusal of a place, and where entries stand.
ghost use Rattle.std.specs.Prelude.{◌≡◌, true, ◌<◌};
ghost use Rattle.word.specs.Numbers.{number_of};
ghost use Rattle.word.specs.Refusals.{refusal_answer};
ghost use Rattle.bindings.specs.Format.{place_of};
ghost use Rattle.bindings.specs.Answers.{binding_answer};
ghost use Rattle.places.specs.Places.{found_below};
ghost use Rattle.resource_steps.specs.Inner.Notes.{note_at};

use bindings::answers::binding_refusal;
use bindings::resource_words::place_of;
use word::refusal::{Number, Refusal};

// The refusal of a number that names the place of a word.
pub(crate) fn place_refusal(number: Number, place: u32) -> Refusal
    ensures { refusal_answer result ≡ binding_answer (number_of number) (place_of place) }
{
    binding_refusal(number, place_of(place))
}

// ---- where the entries of resources stand: positions to try first, which need not be right. Where none is noted it is 0: an Option would
// only be read as 0

// The position that was noted for the resource of an index.
pub(crate) fn noted(entries: &[u8; 128], i: u32) -> usize
    ensures { result < 256 }
{
    if i < 128 {
        usize::from(entries[i as usize])
    } else {
        0
    }
}

// Notes the position that was found for the resource of an index.
pub(crate) fn note(entries: &mut [u8; 128], i: u32, found: Option<usize>)
    requires { found_below 256 found ≡ true }
    ensures { entries.new ≡ note_at i found entries.old }
{
    if let Some(index) = found {
        if i < 128 {
            entries[i as usize] = index as u8;
        }
    }
}
