// Whether a layout entry serves a shader's resource.
ghost use Rattle.std.specs.Prelude.{◌≡◌};
ghost use Rattle.bindings.specs.Rules.{space_of, size_use, buffer_use, sampler_use, acceleration_use, check_binding_use};

use crate::texture_uses::texture_use;
use bindings::types::{
    AddressSpace, BindingError, BindingType, BufferBindingType, ResourceType, SamplerBindingType,
};

// The address space that a buffer entry stands for.
#[tactic(auto, unfolding(word::specs::Choice::yes))]
fn space_of(ty: BufferBindingType) -> AddressSpace
    ensures { result ≡ space_of ty }
{
    match ty {
        BufferBindingType::Uniform => AddressSpace::Uniform,
        BufferBindingType::Storage { read_only: true } => AddressSpace::Storage { access: 1 },
        BufferBindingType::Storage { read_only: false } => AddressSpace::Storage { access: 3 },
    }
}

fn size_use(size: u64, min_size: u64) -> Result<(), BindingError>
    ensures { result ≡ size_use size min_size }
{
    if min_size != 0 && min_size < size {
        return Err(BindingError::WrongBufferSize);
    }
    Ok(())
}

#[tactic(auto, using(crate::proofs::SameLaws::space_same), unfolding(bindings::specs::Rules::buffer_use))]
fn buffer_use(size: u64, space: AddressSpace, entry: BindingType) -> Result<(), BindingError>
    ensures { result ≡ buffer_use size space entry }
{
    match entry {
        BindingType::Buffer {
            ty,
            min_binding_size,
            ..
        } => {
            if space != space_of(ty) {
                return Err(BindingError::WrongAddressSpace);
            }
            size_use(size, min_binding_size)
        }
        _ => Err(BindingError::WrongType),
    }
}

#[tactic(auto, unfolding(bindings::specs::Rules::sampler_use, word::specs::Choice::yes))]
fn sampler_use(comparison: bool, entry: BindingType) -> Result<(), BindingError>
    ensures { result ≡ sampler_use comparison entry }
{
    match entry {
        BindingType::Sampler { ty } => {
            if comparison != (ty == SamplerBindingType::Comparison) {
                return Err(BindingError::WrongSamplerComparison);
            }
            Ok(())
        }
        _ => Err(BindingError::WrongType),
    }
}

#[tactic(auto, unfolding(bindings::specs::Rules::acceleration_use, word::specs::Choice::yes))]
fn acceleration_use(vertex_return: bool, entry: BindingType) -> Result<(), BindingError>
    ensures { result ≡ acceleration_use vertex_return entry }
{
    if entry == (BindingType::AccelerationStructure { vertex_return }) {
        return Ok(());
    }
    Err(BindingError::WrongType)
}

// Whether a layout entry serves a resource, and if not, why.
#[tactic(auto, unfolding(bindings::specs::Rules::check_binding_use))]
pub fn check_binding_use(ty: ResourceType, entry: BindingType) -> Result<(), BindingError>
    ensures { result ≡ check_binding_use ty entry }
{
    match ty {
        ResourceType::Buffer { size, space } => buffer_use(size, space, entry),
        ResourceType::Sampler { comparison } => sampler_use(comparison, entry),
        ResourceType::Texture {
            dim,
            arrayed,
            class,
        } => texture_use(dim, arrayed, class, entry),
        ResourceType::AccelerationStructure { vertex_return } => {
            acceleration_use(vertex_return, entry)
        }
    }
}
