// A pack's bytes as words: four bytes to a word, low byte first.
ghost use Rattle.std.specs.Prelude.{◌≡◌, ◌≤◌, length};
ghost use Rattle.report.specs.Text.{words_of};

use arrayvec::ArrayVec;

// The words of the bytes.
pub(crate) fn words_of(bytes: &[u8]) -> ArrayVec<u32, 4096>
    requires { length bytes.now ≤ 16384 }
    ensures { result.items ≡ words_of bytes.now }
{
    let mut words = ArrayVec::new();
    let (fours, _) = bytes.as_chunks::<4>();
    for four in fours {
        words.push(u32::from_le_bytes(*four));
    }
    words
}
