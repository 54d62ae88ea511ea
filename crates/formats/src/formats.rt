// Vertex and texture formats by their codes.
ghost use Rattle.std.specs.Prelude.{◌≡◌};
ghost use Rattle.word.specs.Refusals.{answer_of, answer_with};
ghost use Rattle.formats.specs.Formats.{vertex_format, texture_format, format_answer, check_type, check_texture_format};
ghost use Rattle.numeric.specs.TypeWords.{read_type};

use numeric::type_words::{read_type, type_word};
use numeric::types::{NumericDimension, NumericType, Scalar, VectorSize as Vs};
use word::refusal::{Number, Refusal};

// Why a format has no type.
#[derive(Clone, Copy, Debug, PartialEq, Eq)]
pub enum FormatError {
    NoColour,
    Unknown,
}

impl From<FormatError> for Refusal {
    ghost use Rattle.formats.specs.Formats.{format_refusal};

    ghost from_gives = { λ e r. r ≡ format_refusal e };

    fn from(error: FormatError) -> Self {
        match error {
            FormatError::NoColour => Refusal::plain(Number::NoColourType),
            FormatError::Unknown => Refusal::plain(Number::UnknownCode),
        }
    }
}

// The type of a vertex format's data, as a shader sees it.
fn from_vertex_format(format: u32) -> Result<NumericType, FormatError>
    ensures { result ≡ vertex_format format }
{
    let (dim, scalar) = match format {
        0..=2 => (NumericDimension::Scalar, Scalar::U32),
        3..=5 => (NumericDimension::Vector(Vs::Bi), Scalar::U32),
        6 => (NumericDimension::Vector(Vs::Tri), Scalar::U32),
        7..=9 => (NumericDimension::Vector(Vs::Quad), Scalar::U32),
        10..=12 => (NumericDimension::Scalar, Scalar::I32),
        13..=15 => (NumericDimension::Vector(Vs::Bi), Scalar::I32),
        16 => (NumericDimension::Vector(Vs::Tri), Scalar::I32),
        17..=19 => (NumericDimension::Vector(Vs::Quad), Scalar::I32),
        20..=25 => (NumericDimension::Scalar, Scalar::F32),
        26..=31 => (NumericDimension::Vector(Vs::Bi), Scalar::F32),
        32 => (NumericDimension::Vector(Vs::Tri), Scalar::F32),
        33..=40 => (NumericDimension::Vector(Vs::Quad), Scalar::F32),
        41 => (NumericDimension::Scalar, Scalar::F64),
        42 => (NumericDimension::Vector(Vs::Bi), Scalar::F64),
        43 => (NumericDimension::Vector(Vs::Tri), Scalar::F64),
        44 => (NumericDimension::Vector(Vs::Quad), Scalar::F64),
        _ => return Err(FormatError::Unknown),
    };
    Ok(NumericType { dim, scalar })
}

// The type of a texture format's colour; all of Astc is one code.
fn from_texture_format(format: u32) -> Result<NumericType, FormatError>
    ensures { result ≡ texture_format format }
{
    let (dim, scalar) = match format {
        0..=3 => (NumericDimension::Scalar, Scalar::F32),
        4..=6 => (NumericDimension::Scalar, Scalar::U32),
        7..=9 => (NumericDimension::Scalar, Scalar::I32),
        10..=13 => (NumericDimension::Vector(Vs::Bi), Scalar::F32),
        14 => (NumericDimension::Scalar, Scalar::U64),
        15..=17 => (NumericDimension::Vector(Vs::Bi), Scalar::U32),
        18..=20 => (NumericDimension::Vector(Vs::Bi), Scalar::I32),
        21..=22 => (NumericDimension::Scalar, Scalar::F32),
        23..=24 => (NumericDimension::Vector(Vs::Bi), Scalar::F32),
        25..=34 => (NumericDimension::Vector(Vs::Quad), Scalar::F32),
        35..=38 => (NumericDimension::Vector(Vs::Quad), Scalar::U32),
        39..=41 => (NumericDimension::Vector(Vs::Quad), Scalar::I32),
        42 => (NumericDimension::Vector(Vs::Tri), Scalar::F32),
        // depth, stencil and planar formats
        43..=50 => return Err(FormatError::NoColour),
        51 => (NumericDimension::Vector(Vs::Tri), Scalar::F32),
        52..=63 => (NumericDimension::Vector(Vs::Quad), Scalar::F32),
        64..=67 => (NumericDimension::Scalar, Scalar::F32),
        68..=71 => (NumericDimension::Vector(Vs::Bi), Scalar::F32),
        72..=75 => (NumericDimension::Vector(Vs::Tri), Scalar::F32),
        76 => (NumericDimension::Vector(Vs::Quad), Scalar::F32),
        _ => return Err(FormatError::Unknown),
    };
    Ok(NumericType { dim, scalar })
}

// The word of a vertex format's type.
pub fn vertex_format(format: u32) -> Result<u32, Refusal>
    ensures { answer_with result ≡ format_answer (vertex_format format) }
{
    Ok(type_word(from_vertex_format(format)?))
}

// The word of a texture format's type.
pub fn texture_format(format: u32) -> Result<u32, Refusal>
    ensures { answer_with result ≡ format_answer (texture_format format) }
{
    Ok(type_word(from_texture_format(format)?))
}

// Whether a texture format is covered by the type, a lone type word, that a shader writes.
#[tactic(auto, unfolding(crate::specs::Formats::check_texture_format))]
pub fn check_texture_format(format: u32, output: u32) -> Result<(), Refusal>
    ensures { answer_of result ≡ check_texture_format (texture_format format) (read_type output) }
{
    match (from_texture_format(format), read_type(output)) {
        (Err(FormatError::Unknown), _) | (_, None) => Err(Refusal::plain(Number::UnknownCode)),
        (Err(FormatError::NoColour), Some(_)) => Err(Refusal::plain(Number::NoColourType)),
        (Ok(t), Some(output)) => check_type(t, output),
    }
}

fn check_type(t: NumericType, output: NumericType) -> Result<(), Refusal>
    ensures { answer_of result ≡ check_type t output }
{
    if t.fits(output) {
        return Ok(());
    }
    Err(Refusal::new(Number::FormatMismatch, type_word(t), 0, 0))
}
