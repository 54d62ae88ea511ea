// What resources come to, and the words that they are judged by.
ghost use Rattle.std.specs.Prelude.{◌≡◌, true};
ghost use Rattle.word.specs.Words.{of_kind};
ghost use Rattle.bindings.specs.Format.{resource_type_of, type_encodable, binding_type_of, binding_code, least_size_of, format_encodable};

use word::refusal::Refusal;

// Resources in list order, ended by the first that is refused: its refusal, and how many passed before it.
#[derive(Clone, Copy, Debug, PartialEq, Eq)]
pub struct Stopped {
    pub refusal: Refusal,
    pub passed: usize,
}

// The refusal alone.
impl From<Stopped> for Refusal {
    ghost from_gives = { λ s r. r ≡ s.refusal };

    fn from(stopped: Stopped) -> Self {
        stopped.refusal
    }
}

// A resource by its words: its place, its type, and its size.
#[derive(Clone, Copy)]
pub(crate) struct ResourceWords {
    pub place: u32,
    pub ty: u32,
    pub size: u64,
    ghost encodable: { type_encodable (resource_type_of ty size) ≡ true },
}

// A binding type by its words: one that a layout list can hold.
#[derive(Clone, Copy)]
pub(crate) struct EntryType {
    pub word: u32,
    pub least: u64,
    ghost encodable: { format_encodable (binding_type_of word least) ≡ true },
    ghost type_word: { word ≡ of_kind 18 (binding_code (binding_type_of word least)) },
    ghost least_size: { least ≡ least_size_of (binding_type_of word least) },
}
