// The numbers that words give to binding types.
ghost use Rattle.std.specs.Prelude.{◌≡◌, ◌≤◌, true};
ghost use Rattle.word.specs.Words.{of_kind};
ghost use Rattle.bindings.specs.Format.{buffer_code, sample_code, binding_code, least_size_of, format_encodable, size_word};

use crate::sizes::size_word;
use crate::types::{BindingType, BufferBindingType, TextureSampleType};

// The bits of a kind of buffer; a case with a field has no number of its own that `as` would give.
#[tactic(auto, using(crate::proofs::CodeLaws::flag_byte))]
fn buffer_code(ty: BufferBindingType) -> u64
    ensures meaning { result ≡ buffer_code ty }
    ensures upper_bound { result ≤ 3 }
{
    match ty {
        BufferBindingType::Uniform => 0,
        BufferBindingType::Storage { read_only } => 1 + 2 * u64::from(read_only),
    }
}

// The number of a sample type; of a float it hangs on the field.
fn sample_code(sample_type: TextureSampleType) -> u64
    ensures meaning { result ≡ sample_code sample_type }
    ensures upper_bound { result ≤ 4 }
{
    match sample_type {
        TextureSampleType::Float { filterable: true } => 0,
        TextureSampleType::Float { filterable: false } => 1,
        TextureSampleType::Depth => 2,
        TextureSampleType::Sint => 3,
        TextureSampleType::Uint => 4,
    }
}

// The type's bits of a binding type.
#[tactic(auto, using(crate::proofs::CodeLaws::flag_byte), unfolding(crate::specs::Format::binding_code))]
pub fn binding_code(ty: BindingType) -> u64
    ensures meaning { result ≡ binding_code ty }
    ensures upper_bound { result ≤ 0x200_0000_0000 }
{
    match ty {
        BindingType::Buffer {
            ty: buffer_type,
            has_dynamic_offset,
            ..
        } => buffer_code(buffer_type) + 4 * u64::from(has_dynamic_offset),
        BindingType::Sampler { ty: sampler_type } => 0x80_0000 + sampler_type as u64,
        BindingType::Texture {
            sample_type,
            view_dimension,
            multisampled,
        } => {
            0x100_0000
                + (16 * sample_code(sample_type)
                    + 8 * u64::from(multisampled)
                    + view_dimension as u64)
        }
        BindingType::StorageTexture {
            access,
            format,
            view_dimension,
        } => {
            0x200_0000 + (0x1_0000 * access as u64 + 256 * format as u64 + view_dimension as u64)
        }
        BindingType::ExternalTexture => 0x280_0000,
        BindingType::AccelerationStructure { vertex_return } => 0x300_0000
            + u64::from(vertex_return),
    }
}

// The least size of a binding type, 0 where there is none.
pub fn least_size(ty: BindingType) -> u64
    ensures { result ≡ least_size_of ty }
{
    match ty {
        BindingType::Buffer {
            min_binding_size,
            ..
        } => min_binding_size,
        _ => 0,
    }
}

// The type word of a binding type that words can hold.
pub fn binding_word(ty: BindingType) -> u32
    requires { format_encodable ty ≡ true }
    ensures { result ≡ of_kind 18 (binding_code ty) }
{
    (0x9000_0000 + binding_code(ty)) as u32
}

// The least-size word of a binding type that words can hold.
pub fn least_word(ty: BindingType) -> u32
    requires { format_encodable ty ≡ true }
    ensures { result ≡ size_word (least_size_of ty) }
{
    size_word(least_size(ty))
}
