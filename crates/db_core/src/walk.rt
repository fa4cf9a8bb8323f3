// A walk over the pairs of a map, from one to the next without a search.
use base_bytes::Pair;

/// A place in a walk over the map that a session sees. The session that gave it knows what it means, until its map
/// changes.
#[derive(Clone, Copy, Debug, PartialEq, Eq)]
pub struct Cursor {
    /// The backend's own number.
    pub place: u64,
}

/// One step of a walk: the pair that stands at a place, and the place of the next one.
#[derive(Clone, Copy, Debug, PartialEq, Eq)]
pub struct Step<'a> {
    pub pair: Pair<'a>,
    pub next: Cursor,
}
