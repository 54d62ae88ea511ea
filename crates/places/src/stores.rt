// Records written into a list.
ghost use Rattle.std.specs.Prelude.{◌≡◌, ◌+◌, ◌*◌, ◌<◌, ◌≤◌, ◌^◌, length, drop, set};
ghost use Rattle.word.specs.Choice.{pick};
ghost use Rattle.word.specs.Words.{word_at};
ghost use Rattle.places.specs.Records.{count_of, past, put, room_for};

use crate::heads::counted;

// The words of an array, stored at a position.
pub fn store<const N: usize>(l: &mut [u32], at: usize, words: [u32; N])
    requires { at + N ≤ length l.old }
    ensures { l.new ≡ put l.old at words.entry }
{
    // not `copy_from_slice`: it hands on pairs with a pointer, which tools/board/build refuses
    for i in 0..N {
        l[at + i] = words[i];
    }
}

// A record at the end of a list, whose head counts it, or nothing where the free room is too small.
pub fn push_record<const WIDTH: usize>(l: &mut [u32], words: [u32; WIDTH]) -> bool
    requires within { (0 < WIDTH) × (WIDTH ≤ 4) × (1 + WIDTH * count_of l.old ≤ length l.old) }
    requires countable { word_at l.old 0 + 1 < 2 ^ 32 }
    ensures value { result ≡ room_for WIDTH (past WIDTH (count_of l.old) (drop 1 l.old)) }
    ensures words { l.new ≡ pick result (set (put l.old (1 + WIDTH * count_of l.old) words.entry) 0 (word_at l.old 0 + 1)) l.old }
{
    let at = 1 + WIDTH * counted(l);
    if l.len() < at + WIDTH {
        return false;
    }
    let head = l[0];
    store(l, at, words);
    l[0] = head + 1;
    true
}
