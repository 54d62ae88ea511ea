// What a shader's resource is, and what a bind group layout provides. Enums without fields have their codes in words as values.
ghost use Rattle.std.specs.Prelude.{◌≡◌};

// A place in a pipeline layout.
#[derive(Clone, Copy, Debug, PartialEq, Eq)]
pub struct ResourceBinding {
    pub group: u32,
    pub binding: u32,
}

// Where a buffer lives. Access is the sum of 1 load, 2 store and 4 atomic.
// It stays a number, as a texture's access and format do: the rules answer for any, and a caller may give any.
#[derive(Clone, Copy, Debug, PartialEq, Eq)]
pub enum AddressSpace {
    Uniform,
    Storage { access: u32 },
    Other,
}

#[derive(Clone, Copy, Debug, PartialEq, Eq)]
pub enum ImageDimension {
    D1 = 0,
    D2 = 1,
    D3 = 2,
    Cube = 3,
}

// What sampling a texture gives.
#[derive(Clone, Copy, Debug, PartialEq, Eq)]
pub enum SampleKind {
    Float = 0,
    Sint = 1,
    Uint = 2,
}

#[derive(Clone, Copy, Debug, PartialEq, Eq)]
pub enum ImageClass {
    Sampled { kind: SampleKind, multi: bool },
    Depth { multi: bool },
    Storage { format: u32, access: u32 },
    External,
}

#[derive(Clone, Copy, Debug, PartialEq, Eq)]
pub enum ResourceType {
    Buffer {
        size: u64,
        space: AddressSpace,
    },
    Sampler {
        comparison: bool,
    },
    Texture {
        dim: ImageDimension,
        arrayed: bool,
        class: ImageClass,
    },
    AccelerationStructure {
        vertex_return: bool,
    },
}

#[derive(Clone, Copy, Debug, PartialEq, Eq)]
pub struct Resource {
    pub bind: ResourceBinding,
    pub ty: ResourceType,
}

#[derive(Clone, Copy, Debug, PartialEq, Eq)]
pub enum BufferBindingType {
    Uniform,
    Storage { read_only: bool },
}

#[derive(Clone, Copy, Debug, PartialEq, Eq)]
pub enum SamplerBindingType {
    Filtering = 0,
    NonFiltering = 1,
    Comparison = 2,
}

#[derive(Clone, Copy, Debug, PartialEq, Eq)]
pub enum TextureSampleType {
    Float { filterable: bool },
    Depth,
    Sint,
    Uint,
}

#[derive(Clone, Copy, Debug, PartialEq, Eq)]
pub enum TextureViewDimension {
    D1 = 0,
    D2 = 1,
    D2Array = 2,
    Cube = 3,
    CubeArray = 4,
    D3 = 5,
}

#[derive(Clone, Copy, Debug, PartialEq, Eq)]
pub enum StorageTextureAccess {
    ReadOnly = 0,
    WriteOnly = 1,
    ReadWrite = 2,
    Atomic = 3,
}

// What a layout entry provides. A least size of 0 is none, as in the words: an Option would have two values for that, None and Some(0).
#[derive(Clone, Copy, Debug, PartialEq, Eq)]
pub enum BindingType {
    Buffer {
        ty: BufferBindingType,
        has_dynamic_offset: bool,
        min_binding_size: u64,
    },
    Sampler {
        ty: SamplerBindingType,
    },
    Texture {
        sample_type: TextureSampleType,
        view_dimension: TextureViewDimension,
        multisampled: bool,
    },
    StorageTexture {
        access: StorageTextureAccess,
        format: u32,
        view_dimension: TextureViewDimension,
    },
    ExternalTexture,
    AccelerationStructure {
        vertex_return: bool,
    },
}

// An entry of a layout: visibility is the sum of 2 to the power of each stage's number.
#[derive(Clone, Copy, Debug, PartialEq, Eq)]
pub struct BindGroupLayoutEntry {
    pub bind: ResourceBinding,
    pub ty: BindingType,
    pub visibility: u32,
}

// Why a layout entry does not serve a resource, or none can be derived for it.
#[derive(Clone, Copy, Debug, PartialEq, Eq)]
pub enum BindingError {
    WrongType,
    WrongAddressSpace,
    WrongBufferAddressSpace,
    WrongBufferSize,
    WrongTextureViewDimension,
    WrongTextureClass,
    WrongSamplerComparison,
    BadStorageFormat,
}
