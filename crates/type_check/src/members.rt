// What stands at positions of a type list.
ghost use Rattle.std.specs.Prelude.{◌≡◌, ◌<◌, ◌≤◌, ◌^◌, drop};
ghost use Rattle.word.specs.Words.{word_at, content_of, bits};
ghost use Rattle.type_check.specs.Inner.Positions.{member_width, struct_at};

// How many words a member takes.
pub fn member_width(words: &[u32], at: usize) -> usize
    requires { at < 2 ^ 60 }
    ensures width { result ≡ member_width (drop at words.now) }
    ensures few { result ≤ 3 }
{
    if word::kind(word::word(words, at + 1)) == 12 {
        3
    } else {
        2
    }
}

// The number of the type that the member at a position names.
pub fn member_type(words: &[u32], at: usize) -> usize
    ensures { result ≡ content_of (word_at words.now at) }
{
    word::content(word::word(words, at)) as usize
}

// How many members the struct at a position has.
pub fn member_count(words: &[u32], at: usize) -> u32
    ensures count { result ≡ bits 15 0 (word_at words.now at) }
    ensures few { result < 65536 }
{
    word::word(words, at) % 0x1_0000
}

// Whether the type at a position is a struct.
pub fn is_struct(words: &[u32], at: usize) -> bool
    ensures { result ≡ struct_at words.now at }
{
    let kind = word::kind(word::word(words, at));
    kind != 22 && kind != 23
}
