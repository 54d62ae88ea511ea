// What the walk over an entry point's inputs has met.
#[derive(Clone, Copy, Debug, PartialEq, Eq)]
pub struct InputWalk {
    pub primitive_index: bool,
    pub draw_index: bool,
    pub per_vertex: bool,
    pub locals: u32,
}

impl InputWalk {
    // The walk that has met nothing yet.
    pub const START: InputWalk = InputWalk {
        primitive_index: false,
        draw_index: false,
        per_vertex: false,
        locals: 0,
    };
}
