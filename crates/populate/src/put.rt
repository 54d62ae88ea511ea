// Varyings written as words, one behind the other. They go to a position of the list out, and not into a slice of it: a struct that was
// written before is copied from further up in the list.
ghost use Rattle.std.specs.Prelude.{◌≡◌, false, ◌+◌, ◌<◌, ◌≤◌, ◌^◌, length, take, drop};
ghost use Rattle.word.specs.Words.{word_at, of_kind};
ghost use Rattle.numeric.specs.TypeWords.{type_of};
ghost use Rattle.varying.specs.Format.{var_word};
ghost use Rattle.interface.specs.Format.{built_in_of, built_in_code};
ghost use Rattle.type_lists.specs.Rules.{numeric_gives, array_gives, type_gives};
ghost use Rattle.type_check.specs.Inner.Positions.{binding_of, type_at, struct_at};
ghost use Rattle.type_check.specs.Inner.Notes.{words_of, start_at};
ghost use Rattle.populate.specs.Inner.Written.{put, bound_var, nothing};

use type_check::clips::is_clip;
use type_check::types::Types;

// A binding by its first word and the one behind it.
#[derive(Clone, Copy)]
pub(crate) struct Binding {
    pub(crate) first: u32,
    pub(crate) second: u32,
}

impl Binding {
    pub(crate) fn at(words: &[u32], at: usize) -> Self
        requires { at < 2 ^ 60 }
        ensures { (result.first ≡ word_at words.now at) × (result.second ≡ word_at words.now (at + 1)) }
    {
        Self {
            first: word::word(words, at),
            second: word::word(words, at + 1),
        }
    }
}

// The word of a built-in, by a binding's.
fn built_in_word(w: u32) -> u32
    ensures { result ≡ of_kind 14 (built_in_code (built_in_of w)) }
{
    let code = (w / 0x100_0000 % 8).min(4);
    0x7000_0000 + (0x100_0000 * code + w % 0x100)
}

// The word of a variable: the type of one word, and what a binding's word says of it.
fn var_word(ty: u32, var: u32) -> u32
    ensures { result ≡ var_word (bound_var (type_of ty) var) }
{
    numeric::type_words::type_word(numeric::type_words::type_of(ty))
        + 0x1000 * (var / 0x1000 % 0x80)
}

// Writes what a scalar, vector or matrix gives; the position behind it.
fn put_bound(ty: u32, binding: Binding, out: &mut [u32], to: usize) -> usize
    requires { to + length (words_of (numeric_gives (type_of ty) (binding_of binding.first binding.second))) ≤ length out.old }
    ensures { (result, out.new) ≡ put out.old to (words_of (numeric_gives (type_of ty) (binding_of binding.first binding.second))) }
{
    match word::kind(binding.first) {
        12 => {
            let second = var_word(ty, binding.second);
            out[to] = 0x6000_0000 + word::content(binding.first);
            out[to + 1] = second;
            to + 2
        }
        14 => {
            out[to] = built_in_word(binding.first);
            to + 1
        }
        _ => to,
    }
}

// Writes what an array of a size gives; the position behind it.
fn put_clip(size: u32, binding: Binding, out: &mut [u32], to: usize) -> usize
    requires sized { size < 2 ^ 27 }
    requires room { to + length (words_of (array_gives size (binding_of binding.first binding.second))) ≤ length out.old }
    ensures { (result, out.new) ≡ put out.old to (words_of (array_gives size (binding_of binding.first binding.second))) }
{
    if !is_clip(binding.first) {
        return to;
    }
    out[to] = 0x7400_0000 + size;
    to + 1
}

// Writes what a type that is no struct gives; the position behind it.
pub(crate) fn put_lone(
    types: &Types<'_>,
    n: usize,
    binding: Binding,
    out: &mut [u32],
    to: usize,
) -> usize
    requires no_struct { (n < types.now.count) × (struct_at types.now.table.words.now (start_at types.now.table.notes.now n) ≡ false) }
    requires room { to + length (words_of (type_gives nothing (type_at (drop (start_at types.now.table.notes.now n) types.now.table.words.now)) (binding_of binding.first binding.second))) ≤ length out.old }
    ensures { (result, out.new)
        ≡ put out.old to (words_of (type_gives nothing (type_at (drop (start_at types.now.table.notes.now n) types.now.table.words.now)) (binding_of binding.first binding.second))) }
{
    let start = types.table.start(n);
    let head = word::word(types.table.words, start);
    if word::kind(head) == 22 {
        return put_bound(head, binding, out, to);
    }
    put_clip(
        word::content(word::word(types.table.words, start + 1)),
        binding,
        out,
        to,
    )
}

// Writes words of a list again, behind them; the position behind the last.
pub(crate) fn put_again(out: &mut [u32], first: usize, to: usize, count: usize) -> usize
    requires { (first + count ≤ to) × (to + count ≤ length out.old) }
    ensures { (result, out.new) ≡ put out.old to (take count (drop first out.old)) }
{
    // not `copy_within`: it hands on pairs with a pointer, which tools/board/build refuses
    for i in 0..count {
        out[to + i] = out[first + i];
    }
    to + count
}
