// What a resource can be in a sampling pair: a texture that is sampled, or a sampler.
#[derive(Clone, Copy, Debug, PartialEq, Eq)]
pub enum Role {
    Other,
    Sampler,
    Texture,
}
