// A numeric type in the bits of a word of kind 13.
ghost use Rattle.std.specs.Prelude.{◌≡◌, ◌<◌, ◌≤◌};
ghost use Rattle.numeric.specs.TypeWords.{kind_at, vector_size_at, shape_at, width_known, type_well_formed, type_of, read_type, shape_code, type_word, compare_types, subtype_number};

use crate::types::{Misfit, NumericDimension, NumericType, Scalar, ScalarKind, VectorSize};
use word::refusal::Number;

// What a code means. No `From` of a number: past the last code it gives the last case, as the definition does.
fn kind_at(code: u32) -> ScalarKind
    ensures { result ≡ kind_at code }
{
    match code {
        0 => ScalarKind::Sint,
        1 => ScalarKind::Uint,
        2 => ScalarKind::Float,
        _ => ScalarKind::Bool,
    }
}

// No `From`, as above.
fn size_at(components: u32) -> VectorSize
    ensures { result ≡ vector_size_at components }
{
    match components {
        2 => VectorSize::Bi,
        3 => VectorSize::Tri,
        _ => VectorSize::Quad,
    }
}

// No `From`: it asks for a code below 16.
fn dimension_at(code: u32) -> NumericDimension
    requires { code < 16 }
    ensures { result ≡ shape_at code }
{
    match code {
        0 => NumericDimension::Scalar,
        1..=3 => NumericDimension::Vector(size_at(code + 1)),
        _ => NumericDimension::Matrix(size_at((code - 4) / 3 + 2), size_at((code - 4) % 3 + 2)),
    }
}

// No pattern: `1 | 2 | 4 | 8` takes a stage check's stack on the board from 2,048 bytes to 2,088.
fn width_known(width: u32) -> bool
    ensures { result ≡ width_known width }
{
    width == 1 || width == 2 || width == 4 || width == 8
}

// Whether the type's bits of a word hold known codes.
pub fn type_well_formed(w: u32) -> bool
    ensures { result ≡ type_well_formed w }
{
    w % 16 < 13 && width_known(w / 64 % 16)
}

// The type that a word holds. No `From`: it takes the bits that are due, whatever the word's kind.
pub fn type_of(w: u32) -> NumericType
    ensures { result ≡ type_of w }
{
    NumericType {
        dim: dimension_at(w % 16),
        scalar: Scalar {
            kind: kind_at(w / 16 % 4),
            width: (w / 64 % 16) as u8,
        },
    }
}

// A lone type: a word of kind 13 with nothing but a type in it.
pub fn read_type(w: u32) -> Option<NumericType>
    ensures { result ≡ read_type w }
{
    if word::kind(w) != 13 || w / 1024 % 0x2_0000 != 0 || !type_well_formed(w) {
        return None;
    }
    Some(type_of(w))
}

// The number of a shape, by its cases' fields.
fn shape_code(dim: NumericDimension) -> u32
    ensures value { result ≡ shape_code dim }
    ensures upper_bound { result ≤ 12 }
{
    match dim {
        NumericDimension::Scalar => 0,
        NumericDimension::Vector(size) => size as u32 - 1,
        NumericDimension::Matrix(columns, rows) => {
            4 + 3 * (columns as u32 - 2) + (rows as u32 - 2)
        }
    }
}

// The word that holds a type alone.
pub fn type_word(t: NumericType) -> u32
    ensures { result ≡ type_word t }
{
    let shape = shape_code(t.dim);
    let kind = t.scalar.kind as u32;
    let width = u32::from(t.scalar.width);
    0x6800_0000 + (shape + 16 * kind + 64 * width)
}

// Whether the first of two lone types fits where the second is provided, and if not, why; none where one of them is no type.
pub fn is_subtype_of(a: u32, b: u32) -> Option<Result<(), Misfit>>
    ensures { result ≡ compare_types (read_type a) (read_type b) }
{
    Some(read_type(a)?.is_subtype_of(read_type(b)?))
}

// The number of a comparison: 1 where it fits, 0 where not, 82 where one is no type.
pub fn subtype_number(compared: Option<Result<(), Misfit>>) -> u32
    ensures { result ≡ subtype_number compared }
{
    match compared {
        Some(Ok(())) => 1,
        Some(Err(_)) => 0,
        None => Number::UnknownCode.code(),
    }
}
