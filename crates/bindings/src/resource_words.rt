// How words carry places and resources. What a word means is read by functions and no `From`: each takes the bits that are due, whatever the
// word's kind.
ghost use Rattle.std.specs.Prelude.{◌≡◌, ◌^◌, ◌<◌, ◌≤◌, true, length, drop, IfSome};
ghost use Rattle.word.specs.Choice.{pick};
ghost use Rattle.word.specs.Parse.{one, from, behind, rest_of};
ghost use Rattle.bindings.specs.Rules.{storable};
ghost use Rattle.bindings.specs.Format.{place_well_formed, place_of, place_encodable, dimension_at, sample_kind_at, space_at, buffer_well_formed, storage_well_formed};
ghost use Rattle.bindings.specs.Format.{resource_type_well_formed, resource_word_well_formed, size_well_formed, is_buffer_word, texture, resource_type_of, resource, read_resource, resource_at};

use crate::sizes::word_size;
use crate::types::{
    AddressSpace, ImageClass, ImageDimension, Resource, ResourceBinding, ResourceType, SampleKind,
};
use word::word;

// Whether a word is a place.
fn place_well_formed(w: u32) -> bool
    ensures { result ≡ place_well_formed w }
{
    w / 0x800_0000 == 4
}

// The place that a word means.
pub fn place_of(w: u32) -> ResourceBinding
    ensures meaning { result ≡ place_of w }
    ensures ranges { (result.group < 16) × (result.binding < 2 ^ 23) }
    ensures encodable { place_encodable result ≡ true }
{
    ResourceBinding {
        group: w / 0x80_0000 % 16,
        binding: w % 0x80_0000,
    }
}

// What a code means. No `From` of a number: past the last code it gives the last case, as the definition does.
fn dimension_at(code: u32) -> ImageDimension
    ensures { result ≡ dimension_at code }
{
    match code {
        0 => ImageDimension::D1,
        1 => ImageDimension::D2,
        2 => ImageDimension::D3,
        _ => ImageDimension::Cube,
    }
}

// No `From`, as above.
fn sample_kind_at(code: u32) -> SampleKind
    ensures { result ≡ sample_kind_at code }
{
    match code {
        0 => SampleKind::Float,
        1 => SampleKind::Sint,
        _ => SampleKind::Uint,
    }
}

// No `From`: two numbers, of which the first may be any.
fn space_at(code: u32, access: u32) -> AddressSpace
    ensures { result ≡ space_at code access }
{
    match code {
        0 => AddressSpace::Uniform,
        1 => AddressSpace::Storage { access },
        _ => AddressSpace::Other,
    }
}

// Only storage has an access.
fn buffer_well_formed(w: u32) -> bool
    ensures { result ≡ buffer_well_formed w }
{
    w / 32 % 0x4_0000 == 0 && w / 8 % 4 < 3 && (w / 8 % 4 == 1 || w % 8 == 0)
}

// Whether textures of a format can be stored to.
pub fn storable(format: u32) -> bool
    ensures { result ≡ storable format }
{
    format < 43 && format != 28 && format != 31
}

// A shader's format is storable, and its access is not 0.
fn storage_well_formed(w: u32) -> bool
    ensures { result ≡ storage_well_formed w }
{
    w / 0x8_0000 % 16 == 0
        && w / 0x8000 % 2 == 0
        && w / 8 % 32 == 0
        && storable(w / 256 % 128)
        && w / 0x1_0000 % 8 != 0
}

// Whether a word's type is known and its unnamed bits are zero.
#[tactic(auto, unfolding(crate::specs::Format::resource_type_well_formed))]
fn resource_type_well_formed(w: u32) -> bool
    ensures { result ≡ resource_type_well_formed w }
{
    match w / 0x80_0000 % 16 {
        0 => buffer_well_formed(w),
        1 | 6 => w / 2 % 0x40_0000 == 0,
        2 => w / 64 % 0x2_0000 == 0 && w / 16 % 4 < 3,
        3 => w / 16 % 0x8_0000 == 0,
        4 => storage_well_formed(w),
        5 => w / 8 % 0x10_0000 == 0,
        _ => false,
    }
}

fn texture(w: u32, class: ImageClass) -> ResourceType
    ensures { result ≡ texture w class }
{
    ResourceType::Texture {
        dim: dimension_at(w % 4),
        arrayed: w / 4 % 2 == 1,
        class,
    }
}

// What a type word and a buffer's size mean.
#[tactic(auto, unfolding(crate::specs::Format::resource_type_of))]
fn resource_type_of(w: u32, size: u64) -> ResourceType
    ensures { result ≡ resource_type_of w size }
{
    let multi = w / 8 % 2 == 1;
    match w / 0x80_0000 % 16 {
        0 => ResourceType::Buffer {
            size,
            space: space_at(w / 8 % 4, w % 8),
        },
        1 => ResourceType::Sampler {
            comparison: w % 2 == 1,
        },
        2 => {
            let kind = sample_kind_at(w / 16 % 4);
            texture(w, ImageClass::Sampled { kind, multi })
        }
        3 => texture(w, ImageClass::Depth { multi }),
        4 => {
            let format = w / 256 % 128;
            let access = w / 0x1_0000 % 8;
            texture(w, ImageClass::Storage { format, access })
        }
        5 => texture(w, ImageClass::External),
        _ => ResourceType::AccelerationStructure {
            vertex_return: w % 2 == 1,
        },
    }
}

fn resource_word_well_formed(w: u32) -> bool
    ensures { result ≡ resource_word_well_formed w }
{
    w / 0x800_0000 == 16 && resource_type_well_formed(w)
}

fn size_well_formed(w: u32) -> bool
    ensures { result ≡ size_well_formed w }
{
    w / 0x800_0000 == 6 && w % 0x800_0000 != 0
}

fn is_buffer(w: u32) -> bool
    ensures { result ≡ is_buffer_word w }
{
    w / 0x80_0000 % 16 == 0
}

// The position behind the size that a buffer has and another resource has not. Readers answer positions and not the words from there on:
// the positions of records are what the check of a pack hands out.
fn size_next(body: &[u32], at: usize, w: u32) -> Option<usize>
    requires { at ≤ length body.now }
    ensures rest { rest_of body.now result
        ≡ pick (is_buffer_word w) (behind (one size_well_formed (drop at body.now))) (from (drop at body.now)) }
    ensures end { IfSome result (λ next. (at ≤ next) × (next ≤ length body.now)) }
{
    if !is_buffer(w) {
        return Some(at);
    }
    if body.len() <= at || !size_well_formed(body[at]) {
        return None;
    }
    Some(at + 1)
}

// The position behind the resource that stands at a position, if one does.
pub fn resource_next(body: &[u32], at: usize) -> Option<usize>
    requires { at ≤ length body.now }
    ensures rest { rest_of body.now result ≡ behind (read_resource (drop at body.now)) }
    ensures end { IfSome result (λ next. (at < next) × (next ≤ length body.now)) }
{
    if body.len() - at < 2 || !place_well_formed(body[at]) {
        return None;
    }
    let w = body[at + 1];
    if !resource_word_well_formed(w) {
        return None;
    }
    size_next(body, at + 2, w)
}

// The resource that stands at a position, read without asking whether it is one.
pub fn resource_at(pack: &[u32], at: usize) -> Resource
    ensures meaning { result ≡ resource_at pack.now at }
    ensures place_encodable { place_encodable result.bind ≡ true }
{
    if pack.len() <= at {
        return resource_of(0, 0, 0);
    }
    resource_of(
        word(pack, at),
        word(pack, at + 1),
        word_size(word(pack, at + 2)),
    )
}

fn resource_of(place: u32, w: u32, size: u64) -> Resource
    ensures meaning { result ≡ resource place w size }
    ensures place_encodable { place_encodable result.bind ≡ true }
{
    let bind = place_of(place);
    let ty = resource_type_of(w, size);
    Resource { bind, ty }
}
