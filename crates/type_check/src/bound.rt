// Bindings: none, a location and a variable without its type, or a built-in.
ghost use Rattle.std.specs.Prelude.{◌≡◌, ◌≤◌, IfSome, length, drop};
ghost use Rattle.word.specs.Parse.{behind, rest_of};
ghost use Rattle.type_lists.specs.Format.{bound_well_formed, built_in_bound, read_binding};

// Whether a word is a variable with no type in it.
#[tactic(auto, unfolding(type_lists::specs::Format::bound_well_formed))]
fn bound_well_formed(w: u32) -> bool
    ensures { result ≡ bound_well_formed w }
{
    word::kind(w) == 13
        && w % 0x1000 == 0
        && w / 0x8_0000 % 0x100 == 0
        && w / 0x1000 % 8 < 5
        && w / 0x8000 % 8 < 6
}

// Whether a word is a built-in; clip distances have no size here.
fn built_in_bound(w: u32) -> bool
    ensures { result ≡ built_in_bound w }
{
    let code = w / 0x100_0000 % 8;
    word::kind(w) == 14 && code < 5 && w / 0x100 % 0x1_0000 == 0 && (code < 4 || w % 0x100 == 0)
}

// The position behind a binding.
pub fn binding_next(words: &[u32], at: usize) -> Option<usize>
    requires { at ≤ length words.now }
    ensures position { rest_of words.now result ≡ behind (read_binding (drop at words.now)) }
    ensures within { IfSome result (λ next. next ≤ length words.now) }
{
    let w = word::word(words, at);
    match word::kind(w) {
        6 if w == 0x3000_0000 => Some(at + 1),
        12 if bound_well_formed(word::word(words, at + 1)) => Some(at + 2),
        14 if built_in_bound(w) => Some(at + 1),
        _ => None,
    }
}
