// A list of types with what is noted of each.
ghost use Rattle.std.specs.Prelude.{◌≡◌, ◌<◌, length};
ghost use Rattle.type_check.specs.Inner.Positions.{earlier_of, struct_at};
ghost use Rattle.type_check.specs.Inner.Notes.{start_at, note_at, Noted, Noted-prop};

use crate::members::is_struct;
use crate::notes::{Note, TypeNote};

// The words of a type list beside a table by type number.
#[derive(Clone, Copy)]
pub struct TypeTable<'a> {
    pub words: &'a [u32],
    pub notes: &'a [TypeNote; 256],
}

impl TypeTable<'_> {
    // Where the type of a number stands.
    pub fn start(&self, n: usize) -> usize
        requires { n < 256 }
        ensures value { result ≡ start_at self.now.notes.now n }
        ensures near { result < 1024 }
    {
        let notes = self.notes;
        usize::from(notes[n].start)
    }

    // What is noted of it.
    pub fn note(&self, n: usize) -> Note
        requires { n < 256 }
        ensures { result ≡ note_at self.now.notes.now n }
    {
        let notes = self.notes;
        notes[n].note
    }

    // Whether it is a struct.
    pub fn is_struct(&self, n: usize) -> bool
        requires { n < 256 }
        ensures { result ≡ struct_at self.now.words.now (start_at self.now.notes.now n) }
    {
        is_struct(self.words, self.start(n))
    }
}

// As many types as are noted, the first of a list.
#[derive(Clone, Copy)]
pub struct Types<'a> {
    pub table: TypeTable<'a>,
    pub count: usize,
    ghost counted: { length (earlier_of table.words.now count) ≡ count },
    ghost noted: { Noted (earlier_of table.words.now count) table.words.now table.notes.now } by { Noted-prop (earlier_of table.words.now count) table.words.now table.notes.now },
}
