// How words carry layout entries. What a word means is read by functions and no `From`: each takes the bits that are due, whatever the word's
// kind.
ghost use Rattle.std.specs.Prelude.{◌≡◌, ◌^◌, ◌<◌, true, ◌&&◌, ◌||◌, ◌==◌, nat_lt};
ghost use Rattle.word.specs.Words.{kind_of, content_of};
ghost use Rattle.bindings.specs.Format.{place_encodable, is_buffer_word, view_at, sample_at, access_at, sampler_at, buffer_at, fields_well_formed, binding_type_well_formed, binding_type_of, entry_well_formed, entry_of, entry_well_formed_at, entry_at};

use crate::resource_words::place_of;
use crate::sizes::word_size;
use crate::types::{
    BindGroupLayoutEntry, BindingType, BufferBindingType, SamplerBindingType, StorageTextureAccess,
    TextureSampleType, TextureViewDimension,
};
use word::word;

// What a code means: past the last code each of these gives the last case, as the definitions do. A `From` would hide that, and the error of
// a `TryFrom` could not come up where the words were tested.
fn view_at(code: u32) -> TextureViewDimension
    ensures { result ≡ view_at code }
{
    match code {
        0 => TextureViewDimension::D1,
        1 => TextureViewDimension::D2,
        2 => TextureViewDimension::D2Array,
        3 => TextureViewDimension::Cube,
        4 => TextureViewDimension::CubeArray,
        _ => TextureViewDimension::D3,
    }
}

// No `From`, as above.
fn sample_at(code: u32) -> TextureSampleType
    ensures { result ≡ sample_at code }
{
    match code {
        0 => TextureSampleType::Float { filterable: true },
        1 => TextureSampleType::Float { filterable: false },
        2 => TextureSampleType::Depth,
        3 => TextureSampleType::Sint,
        _ => TextureSampleType::Uint,
    }
}

// No `From`, as above.
fn access_at(code: u32) -> StorageTextureAccess
    ensures { result ≡ access_at code }
{
    match code {
        0 => StorageTextureAccess::ReadOnly,
        1 => StorageTextureAccess::WriteOnly,
        2 => StorageTextureAccess::ReadWrite,
        _ => StorageTextureAccess::Atomic,
    }
}

// No `From`, as above.
fn sampler_at(code: u32) -> SamplerBindingType
    ensures { result ≡ sampler_at code }
{
    match code {
        0 => SamplerBindingType::Filtering,
        1 => SamplerBindingType::NonFiltering,
        _ => SamplerBindingType::Comparison,
    }
}

// No `From`: a word holds more than the two bits that are read.
fn buffer_at(w: u32) -> BufferBindingType
    ensures { result ≡ buffer_at w }
{
    if w % 2 == 1 {
        return BufferBindingType::Storage {
            read_only: w / 2 % 2 == 1,
        };
    }
    BufferBindingType::Uniform
}

// Whether a code is a binding type's and the word's unnamed bits are zero.
fn fields_well_formed(code: u32, w: u32) -> bool
    ensures { result ≡ fields_well_formed code w }
{
    match code {
        0 => w / 8 % 0x10_0000 == 0 && (w / 2 % 2 == 0 || w % 2 == 1),
        1 => w % 0x80_0000 < 3,
        2 => w / 128 % 0x1_0000 == 0 && w % 8 < 6 && w / 16 % 8 < 5,
        4 => {
            w / 0x4_0000 % 32 == 0
                && w / 0x8000 % 2 == 0
                && w / 8 % 32 == 0
                && w % 8 < 6
                && w / 256 % 128 < 77
        }
        5 => w % 0x80_0000 == 0,
        6 => w / 2 % 0x40_0000 == 0,
        _ => false,
    }
}

// What a type word and a least size mean.
#[tactic(auto, unfolding(crate::specs::Format::binding_type_of))]
pub fn binding_type_of(w: u32, least: u64) -> BindingType
    ensures { result ≡ binding_type_of w least }
{
    match w / 0x80_0000 % 16 {
        0 => BindingType::Buffer {
            ty: buffer_at(w),
            has_dynamic_offset: w / 4 % 2 == 1,
            min_binding_size: least,
        },
        1 => BindingType::Sampler {
            ty: sampler_at(w % 0x80_0000),
        },
        2 => BindingType::Texture {
            sample_type: sample_at(w / 16 % 8),
            view_dimension: view_at(w % 8),
            multisampled: w / 8 % 2 == 1,
        },
        4 => BindingType::StorageTexture {
            access: access_at(w / 0x1_0000 % 4),
            format: w / 256 % 128,
            view_dimension: view_at(w % 8),
        },
        5 => BindingType::ExternalTexture,
        _ => BindingType::AccelerationStructure {
            vertex_return: w % 2 == 1,
        },
    }
}

fn visibility_well_formed(w: u32) -> bool
    ensures { result ≡ (kind_of w == 19 && nat_lt (content_of w) 32) }
{
    w / 0x800_0000 == 19 && w % 0x800_0000 < 32
}

// Only a buffer has a least size.
fn least_well_formed(w: u32, least: u32, visibility: u32) -> bool
    ensures { result ≡ (kind_of least == 6 && ((is_buffer_word w || content_of least == 0) && (kind_of visibility == 19 && nat_lt (content_of visibility) 32))) }
{
    least / 0x800_0000 == 6
        && (w / 0x80_0000 % 16 == 0 || least % 0x800_0000 == 0)
        && visibility_well_formed(visibility)
}

// Whether a word tells a binding type: its kind and its code stand side by side, and are tested as one.
fn type_well_formed(w: u32) -> bool
    ensures { result ≡ (kind_of w == 18 && binding_type_well_formed w) }
{
    fields_well_formed(std::num::wrapping_sub_u32(w / 0x80_0000, 288), w)
}

// Whether four words are an entry.
#[tactic(auto, unfolding(crate::specs::Format::entry_well_formed))]
pub fn words_well_formed(place: u32, w: u32, least: u32, visibility: u32) -> bool
    ensures { result ≡ entry_well_formed place w least visibility }
{
    place / 0x800_0000 == 4 && type_well_formed(w) && least_well_formed(w, least, visibility)
}

// The entry that four words mean.
pub fn entry_of(place: u32, w: u32, least: u32, visibility: u32) -> BindGroupLayoutEntry
    ensures meaning { result ≡ entry_of place w least visibility }
    ensures place_encodable { place_encodable result.bind ≡ true }
    ensures visibility_bound { result.visibility < 2 ^ 27 }
{
    let bind = place_of(place);
    let ty = binding_type_of(w, word_size(least));
    BindGroupLayoutEntry {
        bind,
        ty,
        visibility: word::content(visibility),
    }
}

// Whether an entry stands at a position.
pub fn entry_well_formed(l: &[u32], at: usize) -> bool
    ensures { result ≡ entry_well_formed_at l.now at }
{
    if l.len() <= at {
        return false;
    }
    words_well_formed(
        word(l, at),
        word(l, at + 1),
        word(l, at + 2),
        word(l, at + 3),
    )
}

// The entry that stands at a position, read without asking whether it is one.
pub fn entry_at(l: &[u32], at: usize) -> BindGroupLayoutEntry
    ensures meaning { result ≡ entry_at l.now at }
    ensures place_encodable { place_encodable result.bind ≡ true }
    ensures visibility_bound { result.visibility < 2 ^ 27 }
{
    if l.len() <= at {
        return entry_of(0, 0, 0, 0);
    }
    entry_of(
        word(l, at),
        word(l, at + 1),
        word(l, at + 2),
        word(l, at + 3),
    )
}
