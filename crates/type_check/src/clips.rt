// Where clip distances may stand.
ghost use Rattle.std.specs.Prelude.{◌≡◌, ◌<◌};
ghost use Rattle.word.specs.Words.{word_at, kind_of, bits};
ghost use Rattle.type_check.specs.Inner.Notes.{start_at, clip_word};
ghost use Rattle.type_check.specs.Inner.Clips.{f32_at, clip_good_at, binding_good_at};

use crate::types::TypeTable;

// Whether a word is clip distances.
pub fn is_clip(w: u32) -> bool
    ensures { result ≡ clip_word w }
{
    word::kind(w) == 14 && 4 <= w / 0x100_0000 % 8
}

// Whether a 32-bit float stands at a position.
fn is_f32(words: &[u32], at: usize) -> bool
    ensures { result ≡ f32_at words.now at }
{
    let w = word::word(words, at);
    word::kind(w) == 22 && w % 1024 == 288
}

// Whether clip distances may stand on the type of a number: on an array of 1 to 255 floats, and on a struct, where they are ignored.
#[tactic(auto, unfolding(crate::specs::Inner::Clips::clip_good_at))]
fn clip_good(types: &TypeTable<'_>, n: usize) -> bool
    requires number { n < 256 }
    requires element { kind_of (word_at types.now.words.now (start_at types.now.notes.now n)) ≡ 23 → bits 15 0 (word_at types.now.words.now (start_at types.now.notes.now n)) < 256 }
    ensures { result ≡ clip_good_at types.now.words.now types.now.notes.now (start_at types.now.notes.now n) }
{
    let at = types.start(n);
    let w = word::word(types.words, at);
    match word::kind(w) {
        22 => false,
        23 => match word::content(word::word(types.words, at + 1)) {
            1..=255 => is_f32(types.words, types.start((w % 0x1_0000) as usize)),
            _ => false,
        },
        _ => true,
    }
}

// Whether the type of a number may have a binding that begins with a word.
#[tactic(auto, unfolding(crate::specs::Inner::Clips::binding_good_at))]
pub fn binding_good(types: &TypeTable<'_>, n: usize, w: u32) -> bool
    requires number { n < 256 }
    requires element { kind_of (word_at types.now.words.now (start_at types.now.notes.now n)) ≡ 23 → bits 15 0 (word_at types.now.words.now (start_at types.now.notes.now n)) < 256 }
    ensures { result ≡ binding_good_at types.now.words.now types.now.notes.now n w }
{
    !is_clip(w) || clip_good(types, n)
}
