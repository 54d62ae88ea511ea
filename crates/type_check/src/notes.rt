// What is noted of each type by its number.
ghost use Rattle.std.specs.Prelude.{◌≡◌, ◌+◌, ◌<◌, min};

// How deep structs nest in a type, at most 9; how many varyings it gives, at most 64; and how many words they take, at most 128.
#[derive(Clone, Copy, Debug, PartialEq, Eq)]
pub struct Note {
    pub depth: u8,
    pub count: u8,
    pub words: u8,
}

// Where a type stands in its list, and what is noted of it.
#[derive(Clone, Copy, Debug, PartialEq, Eq)]
pub struct TypeNote {
    pub start: u16,
    pub note: Note,
    pub ghost near: { start < 1024 },
}

// Where a reader stopped, and what is noted of what it read.
#[derive(Clone, Copy, Debug, PartialEq, Eq)]
pub struct Reading {
    pub next: usize,
    pub note: Note,
}

impl Note {
    ghost use Rattle.type_check.specs.Inner.Notes.{note, both};

    // Of nothing.
    pub const NONE: Self = Self {
        depth: 0,
        count: 0,
        words: 0,
    };

    pub(crate) fn new(depth: u8, count: u8, words: u8) -> Self
        ensures { result ≡ note depth count words }
    {
        Self {
            depth,
            count,
            words,
        }
    }

    // Of two that follow each other.
    #[tactic(auto, unfolding(crate::specs::Inner::Notes::both))]
    pub(crate) fn joined(self, other: Self) -> Self
        ensures { result ≡ both self other }
    {
        Self {
            depth: self.depth.max(other.depth),
            count: self.count.saturating_add(other.count).min(64),
            words: self.words.saturating_add(other.words).min(128),
        }
    }

    // One level deeper.
    pub(crate) fn deeper(self) -> Self
        ensures { result ≡ note (min (self.depth + 1) 9) self.count self.words }
    {
        Self {
            depth: self.depth.saturating_add(1).min(9),
            ..self
        }
    }
}

impl TypeNote {
    // Before a type is read.
    pub const NONE: Self = Self {
        start: 0,
        note: Note::NONE,
    };
}
