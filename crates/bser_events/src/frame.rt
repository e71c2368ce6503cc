//! What is still wanted of the containers that are open.
ghost use Rattle.bser_events.specs.Frames.{CountsDown, CountsOn, IsSmall};

/// The parts of a container that are still wanted.
#[derive(Clone, Copy)]
pub(crate) enum Remaining {
    /// So many items of an array.
    Items(usize),
    /// So many entries of an object.
    Entries(usize),
    /// The rest of a template.
    Rows {
        /// How many fields are wanted of the row in work.
        fields: usize,
        /// How many rows are wanted after it.
        rows: usize,
        /// How many fields each of these has.
        width: usize,
    },
}

/// An open container.
#[derive(Clone, Copy)]
pub struct Frame {
    /// How many levels are left inside.
    pub(crate) levels: usize,
    /// What is still wanted of it.
    pub(crate) parts: Remaining,
}

/// The part of a container that is expected.
#[derive(Clone, Copy)]
pub(crate) enum Part {
    /// A value.
    Item,
    /// A key, and then a value.
    Entry,
    /// A value, or a skip.
    Field,
}

impl Remaining {
    /// Counts the next part down. None where none is left.
    #[inline(always)]
    pub(crate) fn next(&mut self) -> Option<Part>
        ensures counted { CountsDown self.old self.new result }
        ensures small { IsSmall self.old → IsSmall self.new }
    {
        match self {
            Remaining::Items(len) => {
                if *len == 0 {
                    return None;
                }
                *len -= 1;
                Some(Part::Item)
            }
            Remaining::Entries(len) => {
                if *len == 0 {
                    return None;
                }
                *len -= 1;
                Some(Part::Entry)
            }
            Remaining::Rows {
                fields,
                rows,
                width,
            } => {
                if *fields != 0 {
                    *fields -= 1;
                    return Some(Part::Field);
                }
                if *rows == 0 || *width == 0 {
                    return None;
                }
                *rows -= 1;
                *fields = *width - 1;
                Some(Part::Field)
            }
        }
    }
    /// What is expected after this piece: the value of an entry after its key, or the next part.
    /// None where none is left.
    #[inline(always)]
    pub(crate) fn next_after(&mut self, due: Part) -> Option<Part>
        ensures counted { CountsOn due self.old self.new result }
        ensures small { IsSmall self.old → IsSmall self.new }
    {
        match due {
            Part::Entry => Some(Part::Item),
            Part::Item | Part::Field => self.next(),
        }
    }
}
