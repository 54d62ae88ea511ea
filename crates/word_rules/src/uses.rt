// Whether an entry serves a resource, by the words of both.
ghost use Rattle.std.specs.Prelude.{◌≡◌, ℕ, ◌≤◌};
ghost use Rattle.word.specs.Words.{bits};
ghost use Rattle.bindings.specs.Rules.{space_of, same_space, size_use, buffer_use, sampler_use, acceleration_use, check_binding_use};
ghost use Rattle.bindings.specs.Format.{bit_set, space_at, resource_type_of, buffer_at, binding_type_of};

use crate::textures::texture_use;
use bindings::types::BindingError;

// Whether a buffer's address space is that of a buffer entry: read-only storage is load, other storage load with store.
#[tactic(auto, unfolding(bindings::specs::Rules::same_space, word::specs::Choice::yes))]
fn spaces_agree(w: u32, entry: u32) -> bool
    ensures { result ≡ same_space (space_at (bits 4 3 w) (bits 2 0 w)) (space_of (buffer_at entry)) }
{
    let space = w / 8 % 4;
    let access = w % 8;
    match entry % 4 {
        1 => space == 1 && access == 3,
        3 => space == 1 && access == 1,
        _ => space == 0,
    }
}

// A least size that is set and smaller than the shader's is 25.
fn size_use(size: u64, least: u64) -> Result<(), BindingError>
    ensures { result ≡ size_use size least }
{
    if least != 0 && least < size {
        Err(BindingError::WrongBufferSize)
    } else {
        Ok(())
    }
}

// Whether an entry serves a buffer.
#[tactic(auto, unfolding(bindings::specs::Rules::buffer_use, bindings::specs::Format::binding_type_of))]
fn buffer_use(w: u32, size: u64, entry: u32, least: u64) -> Result<(), BindingError>
    ensures { result ≡ buffer_use size (space_at (bits 4 3 w) (bits 2 0 w)) (binding_type_of entry least) }
{
    if entry / 0x80_0000 % 16 != 0 {
        return Err(BindingError::WrongType);
    }
    if !spaces_agree(w, entry) {
        return Err(BindingError::WrongAddressSpace);
    }
    size_use(size, least)
}

// Whether an entry serves a sampler.
#[tactic(auto, unfolding(bindings::specs::Rules::sampler_use, bindings::specs::Format::binding_type_of, word::specs::Choice::yes))]
fn sampler_use(w: u32, entry: u32) -> Result<(), BindingError>
    ensures { (least : ℕ) → sampler_use (bit_set 0 w) (binding_type_of entry least) ≡ result }
{
    if entry / 0x80_0000 % 16 != 1 {
        return Err(BindingError::WrongType);
    }
    if (w % 2 == 1) != (2 <= entry % 0x80_0000) {
        return Err(BindingError::WrongSamplerComparison);
    }
    Ok(())
}

// Whether an entry serves an acceleration structure: codes that are no other type's, 3 and those above 5, are read as one.
#[tactic(auto, unfolding(bindings::specs::Rules::acceleration_use, bindings::specs::Format::binding_type_of, word::specs::Choice::yes))]
fn acceleration_use(w: u32, entry: u32) -> Result<(), BindingError>
    ensures { (least : ℕ) → acceleration_use (bit_set 0 w) (binding_type_of entry least) ≡ result }
{
    match entry / 0x80_0000 % 16 {
        0 | 1 | 2 | 4 | 5 => Err(BindingError::WrongType),
        _ => {
            if w % 2 != entry % 2 {
                return Err(BindingError::WrongType);
            }
            Ok(())
        }
    }
}

// Whether an entry serves a resource, by the type words and the sizes of both. Out of line: inlined, it takes a register from the search loops of a stage check.
#[tactic(auto, unfolding(bindings::specs::Rules::check_binding_use, bindings::specs::Format::resource_type_of))]
#[inline(never)]
pub fn words_use(w: u32, size: u64, entry: u32, least: u64) -> Result<(), BindingError>
    ensures { result ≡ check_binding_use (resource_type_of w size) (binding_type_of entry least) }
{
    match w / 0x80_0000 % 16 {
        0 => buffer_use(w, size, entry, least),
        1 => sampler_use(w, entry),
        2 | 3 | 4 | 5 => texture_use(w, entry),
        _ => acceleration_use(w, entry),
    }
}
