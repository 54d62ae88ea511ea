// The entry that a resource asks for: its type word and its least size.
ghost use Rattle.std.specs.Prelude.{◌≡◌, ℕ, ◌≤◌};
ghost use Rattle.word.specs.Choice.{pick};
ghost use Rattle.word.specs.Words.{bits};
ghost use Rattle.bindings.specs.Rules.{view_code, derived_view, derived_sample, derived_access, derived_buffer, derive_binding_type};
ghost use Rattle.bindings.specs.Format.{bit_set, is_buffer_word, dimension_at, sample_kind_at, space_at, resource_type_of, sample_code, access_code};
ghost use Rattle.bindings.specs.Answers.{derived_word};

use bindings::types::BindingError;

// The number of a derived view.
#[tactic(auto, unfolding(word::specs::Choice::yes))]
fn view_bits(w: u32) -> u32
    ensures meaning { result ≡ view_code (derived_view (dimension_at (bits 1 0 w)) (bit_set 2 w)) }
    ensures upper_bound { result ≤ 5 }
{
    match w % 4 {
        0 => 0,
        1 => 1 + w / 4 % 2,
        2 => 5,
        _ => 3 + w / 4 % 2,
    }
}

// The number of a derived sample type.
#[tactic(auto, unfolding(word::specs::Choice::yes))]
fn sample_bits(w: u32, named: bool) -> u32
    ensures meaning { result ≡ sample_code (derived_sample (sample_kind_at (bits 5 4 w)) named) }
    ensures upper_bound { result ≤ 4 }
{
    match w / 16 % 4 {
        0 => u32::from(!named),
        1 => 3,
        _ => 4,
    }
}

// The number of a derived access.
fn access_bits(w: u32) -> u32
    ensures meaning { result ≡ access_code (derived_access (bits 18 16 w)) }
    ensures upper_bound { result ≤ 3 }
{
    match w / 0x1_0000 % 8 {
        1 => 0,
        2 => 1,
        3 => 2,
        _ => 3,
    }
}

// The type word that a buffer asks for: storage of load alone is read-only.
#[tactic(auto, unfolding(bindings::specs::Format::binding_code, word::specs::Choice::yes))]
fn buffer_word(w: u32) -> Result<u32, BindingError>
    ensures { (size : ℕ) → derived_word (derived_buffer size (space_at (bits 4 3 w) (bits 2 0 w))) ≡ result }
{
    match w / 8 % 4 {
        0 => Ok(0x9000_0000),
        1 => {
            if w % 8 == 1 {
                return Ok(0x9000_0003);
            }
            Ok(0x9000_0001)
        }
        _ => Err(BindingError::WrongBufferAddressSpace),
    }
}

// The type word of the entry that a resource asks for, by its type word.
#[tactic(auto, unfolding(bindings::specs::Format::resource_type_of, bindings::specs::Rules::derive_binding_type, bindings::specs::Rules::derived_texture, bindings::specs::Format::binding_code, word::specs::Choice::yes))]
pub fn derived_word(w: u32, named: bool) -> Result<u32, BindingError>
    ensures { (size : ℕ) → derived_word (derive_binding_type (resource_type_of w size) named) ≡ result }
{
    let multi = w / 8 % 2;
    match w / 0x80_0000 % 16 {
        0 => buffer_word(w),
        1 => Ok(0x9080_0000 + 2 * (w % 2)),
        2 => Ok(0x9100_0000 + (16 * sample_bits(w, named) + 8 * multi + view_bits(w))),
        3 => Ok(0x9100_0020 + (8 * multi + view_bits(w))),
        4 => {
            let format = w / 256 % 128;
            Ok(0x9200_0000 + (0x1_0000 * access_bits(w) + 256 * format + view_bits(w)))
        }
        5 => Ok(0x9280_0000),
        _ => Ok(0x9300_0000 + w % 2),
    }
}

// The least size of that entry: only a buffer has a size.
pub fn derived_least(w: u32, size: u64) -> u64
    ensures { result ≡ pick (is_buffer_word w) size 0 }
{
    if w / 0x80_0000 % 16 == 0 { size } else { 0 }
}
