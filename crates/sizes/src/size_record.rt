// The largest size that shaders ask for at a place.
use bindings::types::ResourceBinding;

#[derive(Clone, Copy)]
pub struct SizeRecord {
    pub bind: ResourceBinding,
    pub size: u64,
}
