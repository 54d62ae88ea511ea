// Why a check refuses: a number of the table of refusals, under its name, and three details.
ghost use Rattle.std.specs.Prelude.{◌≡◌};
ghost use Rattle.word.specs.Numbers.{number_of};
ghost use Rattle.word.specs.Refusals.{refusal};

// The numbers of refusals, under the names that specs/Numbers.antt says and include/bokwingi.h hands on.
#[derive(Clone, Copy, Debug, PartialEq, Eq)]
pub enum Number {
    // the pack and the call
    DamagedPack = 1,
    MalformedPack = 2,
    BadCall = 3,
    ShortOut = 4,
    FullList = 5,
    // the choice of an entry point
    EntryAbsent = 10,
    EntryNone = 11,
    EntrySeveral = 12,
    // resources against the layout
    Missing = 20,
    Invisible = 21,
    WrongType = 22,
    WrongAddressSpace = 23,
    WrongBufferAddressSpace = 24,
    WrongBufferSize = 25,
    WrongTextureViewDimension = 26,
    WrongTextureClass = 27,
    WrongSamplerComparison = 28,
    InconsistentlyDerivedType = 29,
    BadStorageFormat = 30,
    // textures with samplers
    FilteringFloat = 32,
    FilteringInteger = 33,
    PairNoTexture = 34,
    // workgroup size
    WorkgroupTooLarge = 40,
    WorkgroupZero = 41,
    // inputs
    InputMissing = 50,
    InputType = 51,
    InputInterpolation = 52,
    InputSampling = 53,
    InputPerPrimitive = 54,
    // slots between stages, and attachments
    VertexLocation = 60,
    VertexCount = 61,
    FragmentLocation = 62,
    FragmentCount = 63,
    ColourLocation = 64,
    SlotsUsedUp = 65,
    DualSource = 66,
    DepthAttachment = 67,
    // mesh and task stages, primitives
    MeshVertices = 70,
    MeshPrimitives = 71,
    MeshTopology = 72,
    PayloadLarge = 73,
    PayloadMismatch = 74,
    InvalidPrimitiveIndex = 75,
    MissingPrimitiveIndex = 76,
    DrawIndex = 77,
    PerVertexNotTriangles = 78,
    // formats and lone types
    NoColourType = 80,
    FormatMismatch = 81,
    UnknownCode = 82,
    // declared types
    BadTypes = 90,
    NestedTooDeep = 91,
    TooManyVaryings = 92,
}

impl Number {
    // The number in the table.
    pub fn code(self) -> u32
        ensures { result ≡ number_of self }
    {
        self as u32
    }
}

#[derive(Clone, Copy, Debug, PartialEq, Eq)]
pub struct Refusal {
    pub number: Number,
    pub first: u32,
    pub second: u32,
    pub third: u32,
}

impl Refusal {
    pub fn new(number: Number, first: u32, second: u32, third: u32) -> Self
        ensures { result ≡ refusal number first second third }
    {
        Self {
            number,
            first,
            second,
            third,
        }
    }

    // A refusal that names no details.
    pub fn plain(number: Number) -> Self
        ensures { result ≡ refusal number 0 0 0 }
    {
        Self::new(number, 0, 0, 0)
    }
}
