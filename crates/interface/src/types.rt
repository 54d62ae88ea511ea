// What an entry point is made of.
use varying::InterfaceVar;

#[derive(Clone, Copy, Debug, PartialEq, Eq)]
pub enum ShaderStage {
    Vertex = 0,
    Fragment = 1,
    Compute = 2,
    Task = 3,
    Mesh = 4,
}

#[derive(Clone, Copy, Debug, PartialEq, Eq)]
pub enum PrimitiveTopology {
    PointList = 0,
    LineList = 1,
    LineStrip = 2,
    TriangleList = 3,
    TriangleStrip = 4,
}

// What a mesh stage puts out at most.
#[derive(Clone, Copy, Debug, PartialEq, Eq)]
pub struct EntryPointMeshInfo {
    pub max_vertices: u32,
    pub max_primitives: u32,
    pub primitive_topology: PrimitiveTopology,
}

// A built-in variable: how many inter-stage slots it takes, and of clip distances how many there are.
#[derive(Clone, Copy, Debug, PartialEq, Eq)]
pub enum BuiltIn {
    Other { places: u32 },
    PrimitiveIndex { places: u32 },
    DrawIndex { places: u32 },
    FragDepth { places: u32 },
    ClipDistances { array_size: u32 },
}

#[derive(Clone, Copy)]
pub enum Varying {
    Local { location: u32, iv: InterfaceVar },
    BuiltIn { built_in: BuiltIn },
}

// A texture that a shader samples with a sampler, both by their index among the pack's resources.
#[derive(Clone, Copy, Debug, PartialEq, Eq)]
pub struct SamplingPair {
    pub texture: u32,
    pub sampler: u32,
}

// A workgroup's dimensions.
#[derive(Clone, Copy, Debug, PartialEq, Eq)]
pub struct WorkgroupSize {
    pub x: u32,
    pub y: u32,
    pub z: u32,
}

// The limits that a pack is checked against.
#[derive(Clone, Copy, Debug, PartialEq, Eq)]
pub struct Limits {
    pub max_inter_stage_shader_variables: u32,
    pub max_color_attachments: u32,
    pub max_compute_workgroup_size_x: u32,
    pub max_compute_workgroup_size_y: u32,
    pub max_compute_workgroup_size_z: u32,
    pub max_compute_invocations_per_workgroup: u32,
    pub max_task_invocations_per_dimension: u32,
    pub max_task_invocations_per_workgroup: u32,
    pub max_mesh_invocations_per_dimension: u32,
    pub max_mesh_invocations_per_workgroup: u32,
    pub max_mesh_output_vertices: u32,
    pub max_mesh_output_primitives: u32,
    pub max_task_payload_size: u32,
}

// Where the parts of an entry point stand in the pack. The payload is the word behind the workgroup size, and a mesh record follows it.
#[derive(Clone, Copy, Debug, PartialEq, Eq)]
pub struct EntryParts {
    pub head: usize,
    pub workgroup: usize,
    pub counts: usize,
    pub resources: usize,
    pub pairs: usize,
    pub inputs: usize,
    pub outputs: usize,
}
