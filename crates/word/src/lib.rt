// Words of 32 bits: a total read, the kind and the content of a word, the closing sum, and the answer of a check.
#![tactic(auto)]

pub mod answer;
pub mod refusal;

ghost use Rattle.std.specs.Prelude.{◌≡◌, ◌^◌, ◌<◌};
ghost use Rattle.word.specs.Words.{word_at, kind_of, content_of, closing_sum};

// The word at a position, 0 past the end.
pub fn word(s: &[u32], at: usize) -> u32
    ensures { result ≡ word_at s.now at }
{
    if at < s.len() { s[at] } else { 0 }
}

// The same as an index or a count.
pub fn index(s: &[u32], at: usize) -> usize
    ensures { result ≡ word_at s.now at }
{
    word(s, at) as usize
}

// A word's kind, its bits 31 to 27. Kinds stay numbers: each is tested where a word of it is due, and an enum would be made of every word
// only to be tested.
pub fn kind(w: u32) -> u32
    ensures value { result ≡ kind_of w }
    ensures upper_bound { result < 32 }
{
    w / 0x800_0000
}

// A word's content, its bits 26 to 0.
pub fn content(w: u32) -> u32
    ensures value { result ≡ content_of w }
    ensures upper_bound { result < 2 ^ 27 }
{
    w % 0x800_0000
}

// The sum of all words before the last, with carries past bit 31 dropped.
pub fn closing_sum(s: &[u32]) -> u32
    ensures { result ≡ closing_sum s.now }
{
    let Some((_, before)) = s.split_last() else {
        return 0;
    };
    let mut total: u32 = 0;
    // not `fold`: its functions hand on pairs with a pointer, which tools/board/build refuses
    for w in before {
        total = total.wrapping_add(*w);
    }
    total
}
