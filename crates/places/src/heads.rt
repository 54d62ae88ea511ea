// The first word of a list, and how long a list may be.
ghost use Rattle.std.specs.Prelude.{◌≡◌, ◌<◌, ◌≤◌, length};
ghost use Rattle.places.specs.Records.{count_of, short_enough};

// How many words a list has at most.
const MOST_LIST_WORDS: usize = 1024;

// Whether a list has at most as many words as one may have, free room included.
pub fn short_enough(l: &[u32]) -> bool
    ensures { result ≡ short_enough l.now }
{
    l.len() <= MOST_LIST_WORDS
}

// How many records a list counts.
pub fn counted(l: &[u32]) -> usize
    requires { 1 ≤ length l.now }
    ensures value { result ≡ count_of l.now }
    ensures upper_bound { result < 0x1_0000 }
{
    (l[0] % 0x1_0000) as usize
}
