//! A container that is open.

/// A container that is open, and what is to come of it.
#[derive(Clone, Copy, Drop)]
pub(crate) struct Container {
    /// How many values come next: the items of an array, or the value of an object's last key.
    pub(crate) values: usize,
    /// How many entries follow.
    pub(crate) entries: usize,
    /// How many levels the values inside may have.
    pub(crate) levels: usize,
}
