// The walk over a type.
ghost use Rattle.std.specs.Prelude.{◌≡◌, ◌+◌, ◌<◌, ◌≤◌, length};
ghost use Rattle.type_lists.specs.Rules.{populate};
ghost use Rattle.type_check.specs.Inner.Positions.{binding_of, earlier_of};
ghost use Rattle.type_check.specs.Inner.Notes.{words_of};
ghost use Rattle.populate.specs.Inner.Written.{put, room, Written};

use crate::put::{Binding, put_again, put_lone};
use type_check::members::{member_count, member_type, member_width};
use type_check::types::Types;

// Writes what a type with its binding gives, member by member; the position behind it. A struct that gives nothing or was written before is not entered.
pub(crate) fn populate(
    types: &Types<'_>,
    n: usize,
    binding: Binding,
    out: &mut [u32],
    to: usize,
    written: &mut [Option<u8>; 256],
) -> usize
    requires inside { (n < types.now.count) × (length written.old ≡ 256) }
    requires before { Written (earlier_of types.now.table.words.now types.now.count) written.old out.old to }
    requires room { to + length (words_of (populate (earlier_of types.now.table.words.now types.now.count) n (binding_of binding.first binding.second))) ≤ room out.old }
    ensures given { (result, out.new) ≡ put out.old to (words_of (populate (earlier_of types.now.table.words.now types.now.count) n (binding_of binding.first binding.second))) }
    ensures after { Written (earlier_of types.now.table.words.now types.now.count) written.new out.new result }
    ensures whole { length written.new ≡ 256 }
{
    let note = types.table.note(n);
    if note.words == 0 {
        return to;
    }
    if !types.table.is_struct(n) {
        return put_lone(types, n, binding, out, to);
    }
    if let Some(first) = written[n] {
        return put_again(out, usize::from(first), to, usize::from(note.words));
    }
    // as a local, since through `types` they are loaded again behind each call
    let words = types.table.words;
    let start = types.table.start(n);
    let mut i = start + 1;
    let mut next = to;
    for _k in 0..member_count(words, start) {
        let m = member_type(words, i);
        let member = Binding::at(words, i + 1);
        next = populate(types, m, member, out, next, written);
        i += member_width(words, i);
    }
    written[n] = Some(to as u8);
    next
}
