// The binding type that a shader's resource asks for.
ghost use Rattle.std.specs.Prelude.{◌≡◌};
ghost use Rattle.bindings.specs.Rules.{derived_view, derived_sample, derived_access, derived_texture, derived_buffer, derive_binding_type};
ghost use Rattle.word.specs.Choice.{pick, yes};
ghost use Rattle.bindings.specs.declared.types.SamplerBindingType.TheVariants as Samp;

use bindings::types::{
    AddressSpace, BindingError, BindingType, BufferBindingType, ImageClass, ImageDimension,
    ResourceType, SampleKind, SamplerBindingType, StorageTextureAccess, TextureSampleType,
    TextureViewDimension,
};

#[tactic(auto, unfolding(word::specs::Choice::yes))]
fn view_dimension(dim: ImageDimension, arrayed: bool) -> TextureViewDimension
    ensures { result ≡ derived_view dim arrayed }
{
    match (dim, arrayed) {
        (ImageDimension::D1, _) => TextureViewDimension::D1,
        (ImageDimension::D2, false) => TextureViewDimension::D2,
        (ImageDimension::D2, true) => TextureViewDimension::D2Array,
        (ImageDimension::D3, _) => TextureViewDimension::D3,
        (ImageDimension::Cube, false) => TextureViewDimension::Cube,
        (ImageDimension::Cube, true) => TextureViewDimension::CubeArray,
    }
}

// A float texture is filterable where a pair names it.
fn sample_type(kind: SampleKind, named: bool) -> TextureSampleType
    ensures { result ≡ derived_sample kind named }
{
    match kind {
        SampleKind::Float => TextureSampleType::Float { filterable: named },
        SampleKind::Sint => TextureSampleType::Sint,
        SampleKind::Uint => TextureSampleType::Uint,
    }
}

fn storage_access(access: u32) -> StorageTextureAccess
    ensures { result ≡ derived_access access }
{
    match access {
        1 => StorageTextureAccess::ReadOnly,
        2 => StorageTextureAccess::WriteOnly,
        3 => StorageTextureAccess::ReadWrite,
        _ => StorageTextureAccess::Atomic,
    }
}

#[tactic(auto, unfolding(bindings::specs::Rules::derived_texture))]
fn texture_type(class: ImageClass, view_dimension: TextureViewDimension, named: bool) -> BindingType
    ensures { result ≡ derived_texture class view_dimension named }
{
    match class {
        ImageClass::Sampled { kind, multi } => BindingType::Texture {
            sample_type: sample_type(kind, named),
            view_dimension,
            multisampled: multi,
        },
        ImageClass::Depth { multi } => BindingType::Texture {
            sample_type: TextureSampleType::Depth,
            view_dimension,
            multisampled: multi,
        },
        ImageClass::Storage { format, access } => BindingType::StorageTexture {
            access: storage_access(access),
            format,
            view_dimension,
        },
        ImageClass::External => BindingType::ExternalTexture,
    }
}

// Storage of load alone is read-only.
fn buffer_type(size: u64, space: AddressSpace) -> Result<BindingType, BindingError>
    ensures { result ≡ derived_buffer size space }
{
    let ty = match space {
        AddressSpace::Uniform => BufferBindingType::Uniform,
        AddressSpace::Storage { access } => BufferBindingType::Storage {
            read_only: access == 1,
        },
        AddressSpace::Other => return Err(BindingError::WrongBufferAddressSpace),
    };
    Ok(BindingType::Buffer {
        ty,
        has_dynamic_offset: false,
        min_binding_size: size,
    })
}

#[tactic(auto, unfolding(word::specs::Choice::yes))]
fn sampler_type(comparison: bool) -> SamplerBindingType
    ensures { result ≡ pick (yes comparison) Samp.Comparison Samp.Filtering }
{
    if comparison {
        return SamplerBindingType::Comparison;
    }
    SamplerBindingType::Filtering
}

// The binding type; a buffer of an address space that is neither uniform nor storage has none.
#[tactic(auto, unfolding(bindings::specs::Rules::derive_binding_type))]
pub fn derive_binding_type(ty: ResourceType, named: bool) -> Result<BindingType, BindingError>
    ensures { result ≡ derive_binding_type ty named }
{
    match ty {
        ResourceType::Buffer { size, space } => buffer_type(size, space),
        ResourceType::Sampler { comparison } => Ok(BindingType::Sampler {
            ty: sampler_type(comparison),
        }),
        ResourceType::Texture {
            dim,
            arrayed,
            class,
        } => Ok(texture_type(class, view_dimension(dim, arrayed), named)),
        ResourceType::AccelerationStructure { vertex_return } => {
            Ok(BindingType::AccelerationStructure { vertex_return })
        }
    }
}
