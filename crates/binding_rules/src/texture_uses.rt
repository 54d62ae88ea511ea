// Whether a layout entry serves a shader's texture.
ghost use Rattle.std.specs.Prelude.{◌≡◌};
ghost use Rattle.word.specs.Choice.{pick};
ghost use Rattle.bindings.specs.Rules.{storable, view_fits, class_of, sampled_fits, storage_fits, access_of, is_external, class_use, texture_use};
ghost use Rattle.bindings.specs.declared.types.BindingError.TheVariants as Error;

use bindings::resource_words::storable;
use bindings::types::{
    BindingError, BindingType, ImageClass, ImageDimension, SampleKind, StorageTextureAccess,
    TextureSampleType, TextureViewDimension,
};

// Arrayed textures are 2D or cube.
#[tactic(auto, unfolding(bindings::specs::Rules::view_fits, word::specs::Choice::yes))]
fn view_fits(dim: ImageDimension, arrayed: bool, view: TextureViewDimension) -> bool
    ensures { result ≡ view_fits dim arrayed view }
{
    match (dim, arrayed) {
        (ImageDimension::D1, false) => view == TextureViewDimension::D1,
        (ImageDimension::D2, false) => view == TextureViewDimension::D2,
        (ImageDimension::D2, true) => view == TextureViewDimension::D2Array,
        (ImageDimension::D3, false) => view == TextureViewDimension::D3,
        (ImageDimension::Cube, false) => view == TextureViewDimension::Cube,
        (ImageDimension::Cube, true) => view == TextureViewDimension::CubeArray,
        _ => false,
    }
}

// A texture in another view has the wrong view dimension.
fn view_use(
    dim: ImageDimension,
    arrayed: bool,
    view: TextureViewDimension,
) -> Result<(), BindingError>
    ensures { result ≡ pick (view_fits dim arrayed view) (Ok tt) (Err Error.WrongTextureViewDimension) }
{
    if view_fits(dim, arrayed, view) {
        return Ok(());
    }
    Err(BindingError::WrongTextureViewDimension)
}

// The class that a sampled entry stands for.
fn class_of(sample_type: TextureSampleType, multi: bool) -> ImageClass
    ensures { result ≡ class_of sample_type multi }
{
    match sample_type {
        TextureSampleType::Float { .. } => ImageClass::Sampled {
            kind: SampleKind::Float,
            multi,
        },
        TextureSampleType::Sint => ImageClass::Sampled {
            kind: SampleKind::Sint,
            multi,
        },
        TextureSampleType::Uint => ImageClass::Sampled {
            kind: SampleKind::Uint,
            multi,
        },
        TextureSampleType::Depth => ImageClass::Depth { multi },
    }
}

// Access as a sum: an atomic entry is load and store too.
fn access_of(access: StorageTextureAccess) -> u32
    ensures { result ≡ access_of access }
{
    match access {
        StorageTextureAccess::ReadOnly => 1,
        StorageTextureAccess::WriteOnly => 2,
        StorageTextureAccess::ReadWrite => 3,
        StorageTextureAccess::Atomic => 7,
    }
}

// Formats match exactly. A store-only shader is served by an entry of load and store.
#[tactic(auto, unfolding(bindings::specs::Rules::storage_fits))]
fn storage_fits(class: ImageClass, format: u32, binding_access: u32) -> bool
    ensures { result ≡ storage_fits class format binding_access }
{
    match class {
        ImageClass::Storage {
            format: shader_format,
            access,
        } => {
            shader_format == format
                && (access == binding_access || (access == 2 && binding_access == 3))
        }
        _ => false,
    }
}

fn class_use(fits: bool) -> Result<(), BindingError>
    ensures { result ≡ class_use fits }
{
    if fits {
        return Ok(());
    }
    Err(BindingError::WrongTextureClass)
}

#[tactic(auto, using(crate::proofs::SameLaws::class_same))]
fn sampled_use(
    class: ImageClass,
    sample_type: TextureSampleType,
    multi: bool,
) -> Result<(), BindingError>
    ensures { result ≡ class_use (sampled_fits class (class_of sample_type multi)) }
{
    class_use(class == class_of(sample_type, multi))
}

fn storage_use(
    class: ImageClass,
    access: StorageTextureAccess,
    format: u32,
) -> Result<(), BindingError>
    ensures { result ≡ pick (storable format) (class_use (storage_fits class format (access_of access))) (Err Error.BadStorageFormat) }
{
    if !storable(format) {
        return Err(BindingError::BadStorageFormat);
    }
    class_use(storage_fits(class, format, access_of(access)))
}

fn external_use(class: ImageClass) -> Result<(), BindingError>
    ensures { result ≡ class_use (is_external class) }
{
    class_use(class == ImageClass::External)
}

// A texture on an entry that is none has the wrong view dimension.
#[tactic(auto, unfolding(bindings::specs::Rules::texture_use))]
pub(crate) fn texture_use(
    dim: ImageDimension,
    arrayed: bool,
    class: ImageClass,
    entry: BindingType,
) -> Result<(), BindingError>
    ensures { result ≡ texture_use dim arrayed class entry }
{
    match entry {
        BindingType::Texture {
            sample_type,
            view_dimension,
            multisampled,
        } => {
            view_use(dim, arrayed, view_dimension)?;
            sampled_use(class, sample_type, multisampled)
        }
        BindingType::StorageTexture {
            access,
            format,
            view_dimension,
        } => {
            view_use(dim, arrayed, view_dimension)?;
            storage_use(class, access, format)
        }
        BindingType::ExternalTexture => {
            view_use(dim, arrayed, TextureViewDimension::D2)?;
            external_use(class)
        }
        _ => Err(BindingError::WrongTextureViewDimension),
    }
}
