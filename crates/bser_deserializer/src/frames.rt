//! Containers that were opened.

/// An array that was opened: how many items it has, whether they are rows, and what was open around
/// it.
#[derive(Clone, Copy)]
pub struct SeqHead {
    pub remaining: usize,
    pub rows: bool,
    pub levels: usize,
    pub opened: usize,
}

/// An object or a row that was opened: of an object how many entries it has, of a row the place of
/// its first field, and what was open around it.
#[derive(Clone, Copy)]
pub struct MapHead {
    pub at: usize,
    pub row: bool,
    pub levels: usize,
    pub opened: usize,
}
