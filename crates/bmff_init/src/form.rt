/// What a movie box is read as.
#[derive(Clone, Copy, Debug, PartialEq, Eq)]
pub enum Form {
    /// That of an initialization segment: the samples stand in fragments.
    Fragmented,
    /// That of a classic file: the samples stand in the tables of the movie box.
    Classic,
}
