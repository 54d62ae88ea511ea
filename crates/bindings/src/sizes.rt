// How words carry sizes.
ghost use Rattle.std.specs.Prelude.{◌≡◌, ◌+◌, ◌<◌, ◌≤◌, length};
ghost use Rattle.word.specs.Words.{content_of};
ghost use Rattle.bindings.specs.Format.{size_width, size_limit, size_word, size_standing};

use word::content;

// The size that a word carries.
pub fn word_size(w: u32) -> u64
    ensures { result ≡ content_of w }
{
    content(w) as u64
}

// The size that stands at a position.
pub fn size_at(ws: &[u32], at: usize) -> u64
    requires { at + size_width ≤ length ws.now }
    ensures { result ≡ size_standing ws.now at }
{
    word_size(ws[at])
}

// The word of a size that words can hold.
pub fn size_word(size: u64) -> u32
    requires { size < size_limit }
    ensures { result ≡ size_word size }
{
    0x3000_0000 + size as u32
}
