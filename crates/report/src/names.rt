// The name of an entry point as bytes.
ghost use Rattle.std.specs.Prelude.{◌≡◌, ◌<◌, ◌≤◌, length};
ghost use Rattle.arrayvec.specs.ArrayVec.{array_vec_len};
ghost use Rattle.interface.specs.Format.{bytes_of};
ghost use Rattle.interface.specs.Inner.Reads.{name_at};
ghost use Rattle.interface.specs.Inner.Parts.{workgroup_at};

use crate::text::extend;
use arrayvec::ArrayVec;
use entry_points::names::name_count;
use interface::parts::name_words;
use word::word;

// The bytes of words, four to a word, low byte first.
fn bytes_of(words: &[u32]) -> ArrayVec<u8, 128>
    requires { length words.now ≤ 32 }
    ensures { result.items ≡ bytes_of words.now }
{
    let mut bytes = ArrayVec::new();
    for w in words {
        extend(&mut bytes, &w.to_le_bytes());
    }
    bytes
}

// The name of the entry point that begins at a position.
pub(crate) fn name_at(pack: &[u32], head: usize) -> ArrayVec<u8, 128>
    requires { workgroup_at pack.now head ≤ length pack.now }
    ensures name { result.items ≡ name_at pack.now head }
    ensures upper_bound { array_vec_len result < 128 }
{
    let first = word(pack, head);
    let from = head + 1;
    let mut name = bytes_of(&pack[from..from + name_words(first)]);
    name.truncate(name_count(first));
    name
}
