/// Whose turn it is in its place: a key, how many bytes may still go under it, and from what source.
#[derive(Drop)]
pub struct Served<S> {
    pub key: u32,
    pub deficit: u32,
    pub source: S,
}
