// A numeric type is a shape and a scalar.
ghost use Rattle.std.specs.Prelude.{◌≡◌};
ghost use Rattle.numeric.specs.Types.{shape_fits, subtype_of, fits};

#[derive(Clone, Copy, Debug, PartialEq, Eq)]
pub enum ScalarKind {
    Sint = 0,
    Uint = 1,
    Float = 2,
    Bool = 3,
}

// The width is in bytes.
#[derive(Clone, Copy, Debug, PartialEq, Eq)]
pub struct Scalar {
    pub kind: ScalarKind,
    pub width: u8,
}

// The scalars that formats have.
impl Scalar {
    pub const I32: Scalar = Scalar {
        kind: ScalarKind::Sint,
        width: 4,
    };

    pub const U32: Scalar = Scalar {
        kind: ScalarKind::Uint,
        width: 4,
    };

    pub const F32: Scalar = Scalar {
        kind: ScalarKind::Float,
        width: 4,
    };

    pub const U64: Scalar = Scalar {
        kind: ScalarKind::Uint,
        width: 8,
    };

    pub const F64: Scalar = Scalar {
        kind: ScalarKind::Float,
        width: 8,
    };
}

// How many components a vector, or a side of a matrix, has. No derived order: it reads a table, and the board's library has no data.
#[derive(Clone, Copy, Debug, PartialEq, Eq)]
pub enum VectorSize {
    Bi = 2,
    Tri = 3,
    Quad = 4,
}

#[derive(Clone, Copy, Debug, PartialEq, Eq)]
pub enum NumericDimension {
    Scalar,
    Vector(VectorSize),
    Matrix(VectorSize, VectorSize),
}

#[derive(Clone, Copy, Debug, PartialEq, Eq)]
pub struct NumericType {
    pub dim: NumericDimension,
    pub scalar: Scalar,
}

// Why a type does not fit where another is provided.
#[derive(Clone, Copy, Debug, PartialEq, Eq)]
pub enum Misfit {
    TooWide,
    OtherKind,
    OtherShape,
}

// Whether a shape is below another: a scalar below a vector, a vector below a longer one, a matrix below itself.
fn shape_fits(dim: NumericDimension, other: NumericDimension) -> bool
    ensures { result ≡ shape_fits dim other }
{
    match (dim, other) {
        (NumericDimension::Scalar, NumericDimension::Scalar | NumericDimension::Vector(_)) => true,
        (NumericDimension::Vector(s0), NumericDimension::Vector(s1)) => s0 as u32 <= s1 as u32,
        (NumericDimension::Matrix(c0, r0), NumericDimension::Matrix(c1, r1)) => {
            c0 == c1 && r0 == r1
        }
        _ => false,
    }
}

impl NumericType {
    // Whether the type fits where another is provided, and if not, why, tried in this order: width, scalar kind, shape.
    pub(crate) fn is_subtype_of(self, other: NumericType) -> Result<(), Misfit>
        ensures { result ≡ subtype_of self other }
    {
        if self.scalar.width > other.scalar.width {
            return Err(Misfit::TooWide);
        }
        if self.scalar.kind != other.scalar.kind {
            return Err(Misfit::OtherKind);
        }
        if !shape_fits(self.dim, other.dim) {
            return Err(Misfit::OtherShape);
        }
        Ok(())
    }

    // Whether it fits.
    pub fn fits(self, other: NumericType) -> bool
        ensures { result ≡ fits self other }
    {
        self.is_subtype_of(other).is_ok()
    }
}
