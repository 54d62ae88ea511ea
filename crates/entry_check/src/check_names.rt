// Names of entry points: four bytes a word, low first, with zero bytes behind the name and none in it.
ghost use Rattle.std.specs.Prelude.{◌≡◌, ◌+◌, ◌-◌, ◌^◌, ◌<◌, ◌≤◌, [], ◌∷◌, length, drop, IfSome};
ghost use Rattle.word.specs.Parse.{behind, rest_of};
ghost use Rattle.interface.specs.Format.{bytes_of, name_well_formed, read_name};
ghost use Rattle.entry_check.specs.Inner.Walks.{same_first, same_name, same_head, has_head, distinct_heads};

// Whether a word holds the first bytes of what is left of a name.
fn name_word_well_formed(w: u32, left: u32) -> bool
    requires { 1 ≤ left }
    ensures { result ≡ name_well_formed left (bytes_of (w ∷ [])) }
{
    // No match on what is left: each length shares the tests of the bytes before.
    if w % 0x100 == 0 {
        return false;
    }
    if left == 1 {
        return w / 0x100 == 0;
    }
    if w / 0x100 % 0x100 == 0 {
        return false;
    }
    if left == 2 {
        return w / 0x1_0000 == 0;
    }
    if w / 0x1_0000 % 0x100 == 0 {
        return false;
    }
    if left == 3 {
        return w / 0x100_0000 == 0;
    }
    w / 0x100_0000 != 0
}

// The position behind a name of so many bytes, if it is well formed.
pub(crate) fn name_next(body: &[u32], from: usize, bytes: u32) -> Option<usize>
    requires { from ≤ length body.now }
    ensures rest { rest_of body.now result ≡ behind (read_name bytes (drop from body.now)) }
    ensures end { IfSome result (λ next. next ≤ length body.now) }
{
    let n = bytes.div_ceil(4);
    for i in 0..n {
        if !name_word_well_formed(word::word(body, from + i as usize), bytes - 4 * i) {
            return None;
        }
    }
    Some(from + n as usize)
}

// Whether two words have the same first bytes of what is left of a name.
pub fn same_first(v: u32, w: u32, left: u32) -> bool
    requires { 1 ≤ left }
    ensures { result ≡ same_first left v w }
{
    match left {
        1 => v % 0x100 == w % 0x100,
        2 => v % 0x1_0000 == w % 0x1_0000,
        3 => v % 0x100_0000 == w % 0x100_0000,
        _ => v == w,
    }
}

// Whether the names at two positions, of the same number of bytes, are the same.
fn same_name(body: &[u32], from: usize, other: usize, bytes: u32) -> bool
    requires { (from < 2 ^ 40) × (other < 2 ^ 40) }
    ensures { result ≡ same_name bytes (drop from body.now) (drop other body.now) }
{
    for i in 0..bytes.div_ceil(4) {
        let v = word::word(body, from + i as usize);
        let w = word::word(body, other + i as usize);
        if !same_first(v, w, bytes - 4 * i) {
            return false;
        }
    }
    true
}

// Whether two entry points, by the positions of their first words, have the same stage and name.
fn same_head(body: &[u32], g: u16, h: u16) -> bool
    ensures { result ≡ same_head body.now g h }
{
    let i = g as usize;
    let j = h as usize;
    let v = word::word(body, i);
    let w = word::word(body, j);
    v / 0x100_0000 % 8 == w / 0x100_0000 % 8
        && v / 0x1_0000 % 0x80 == w / 0x1_0000 % 0x80
        && same_name(body, i + 1, j + 1, v / 0x1_0000 % 0x80)
}

// Whether an entry point's stage and name are those of one of a list.
fn head_again(body: &[u32], h: u16, heads: &[u16]) -> bool
    ensures { result ≡ has_head body.now h heads.now }
{
    // not `any`: its functions hand on pairs with a pointer, which tools/board/build refuses
    for g in heads {
        if same_head(body, *g, h) {
            return true;
        }
    }
    false
}

// Whether stage and name together occur once among entry points, listed by the positions of their first words.
pub fn names_distinct(body: &[u32], heads: &[u16]) -> bool
    ensures { result ≡ distinct_heads body.now heads.now }
{
    for (i, h) in heads.iter().enumerate() {
        if head_again(body, *h, &heads[i + 1..]) {
            return false;
        }
    }
    true
}
