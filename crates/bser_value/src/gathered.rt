//! Values that are gathered one by one, and become a list.
ghost use Rattle.std.specs.Prelude.{◌≡◌, [], ◌∷◌, ◌++◌, IfOk, OnOk};
ghost use Rattle.bser_value.specs.Gathered.{joined, all_items};

use crate::value::Value;
use std::alloc::{AllocError, Global};
use std::mem;

/// How many values a piece has. Their memory is less than a kilobyte.
const PIECE: usize = 31;

/// How many pieces there are at most before the last. The memory of their list is less than a
/// kilobyte too.
const MOST_PIECES: usize = 41;

/// The fewest values that there is room for.
const FEWEST: usize = 4;

/// Values in their order, in pieces that become one list once all are there.
///
/// A list that grows value by value asks for ever larger memory, and at such a request an allocator
/// joins all that was freed in small parts, to cut it anew for each text and each map. So the one
/// large request is made late, when what was freed is in use again. Very many values become one
/// list before, which from then on grows.
#[derive(Drop)]
pub struct Gathered {
    /// The pieces before the last, each of [`PIECE`] values.
    pieces: Vec<Vec<Value>>,
    /// The piece that values are put into, or the list that very many pieces became.
    last: Vec<Value>,
}

impl Gathered {
    /// Begins with no values. It takes no memory.
    pub fn new(alloc: Global) -> Self
        ensures { all_items result ≡ [] }
    {
        Gathered {
            pieces: Vec::new(alloc),
            last: Vec::new(alloc),
        }
    }

    /// Puts a value in behind the others.
    #[inline(always)]
    pub fn push(&mut self, value: Value) -> Result<(), AllocError>
        ensures { OnOk result (all_items self.new ≡ all_items self.old ++ value ∷ []) }
    {
        if self.last.len() == self.last.capacity() {
            self.make_room()?;
        }
        self.last.push(value)?;
        Ok(())
    }

    /// Makes room behind the last piece.
    #[cold]
    #[inline(never)]
    fn make_room(&mut self) -> Result<(), AllocError>
        ensures { OnOk result (all_items self.new ≡ all_items self.old) }
    {
        let len = self.last.len();
        if len < PIECE {
            return self.last.reserve_exact(len.max(FEWEST).min(PIECE - len));
        }
        if len > PIECE {
            return self.last.reserve(1);
        }
        if self.pieces.len() == MOST_PIECES {
            return self.join_pieces();
        }
        self.add_piece()
    }

    /// Makes an empty piece the last.
    fn add_piece(&mut self) -> Result<(), AllocError>
        ensures { OnOk result (all_items self.new ≡ all_items self.old) }
    {
        let piece = Vec::with_capacity(*self.last.allocator(), PIECE)?;
        let room = MOST_PIECES.saturating_sub(self.pieces.len());
        self.pieces.reserve_exact(room)?;
        self.pieces.push(mem::replace(&mut self.last, piece))?;
        Ok(())
    }

    /// Moves all values into the last piece.
    fn join_pieces(&mut self) -> Result<(), AllocError>
        ensures { OnOk result (all_items self.new ≡ all_items self.old) }
    {
        let alloc = *self.last.allocator();
        let pieces = mem::replace(&mut self.pieces, Vec::new(alloc));
        let mut list = list_of(alloc, pieces, self.last.len())?;
        list.append(&mut self.last)?;
        self.last = list;
        Ok(())
    }

    /// Returns all values in one list.
    pub fn into_list(self) -> Result<Vec<Value>, AllocError>
        ensures { IfOk result (λ list. list.items ≡ all_items self) }
    {
        let Gathered { pieces, mut last } = self;
        if pieces.is_empty() {
            return Ok(last);
        }
        let mut list = list_of(*last.allocator(), pieces, last.len())?;
        list.append(&mut last)?;
        Ok(list)
    }
}

/// Moves the values of the pieces into a list, with room for so many more.
fn list_of(alloc: Global, pieces: Vec<Vec<Value>>, more: usize) -> Result<Vec<Value>, AllocError>
    ensures { IfOk result (λ v. v.items ≡ joined pieces.items) }
{
    let len = pieces.len().saturating_mul(PIECE).saturating_add(more);
    let mut list = Vec::with_capacity(alloc, len)?;
    for mut piece in pieces {
        list.append(&mut piece)?;
    }
    Ok(list)
}
