//! The containers that are open, and what names their parts.

use crate::parts::put_digits;
use itoa::Buffer;
use std::alloc::{AllocError, Global};
use std::io;
use std::io::Write;

/// A container that is open.
#[derive(Drop)]
pub(crate) enum OpenView {
    /// An array, of which so many items were begun.
    Array {
        begun: usize,
    },
    /// An object.
    Object,
    /// A template: its keys as they are printed, and which field of which row comes next, once the
    /// rows are told.
    Template {
        keys: Vec<String>,
        next: Option<RowLabel>,
    },
}

/// What stands before the number of a row.
const ROW: &[u8; 4] = b"row ";

/// How many bytes the name of a row has at most, with a number of 20 digits and a space.
const LABEL: usize = 25;

/// A field of a template's rows, by its row and its column.
#[derive(Clone, Copy)]
pub(crate) struct RowLabel {
    row: usize,
    column: usize,
    // the name of the row, which begins at `start`
    label: [u8; LABEL],
    start: usize,
}

impl OpenView {
    /// Goes to the next part.
    pub(crate) fn step(&mut self) {
        match self {
            OpenView::Array { begun } => *begun = begun.saturating_add(1),
            OpenView::Object => {}
            OpenView::Template { keys, next } => {
                if let Some(field) = next {
                    *next = Some(field.behind(keys.len()));
                }
            }
        }
    }

    /// Puts what stands before the next part: its place in an array, its row and its key in a
    /// template.
    #[inline(always)]
    pub(crate) fn put_name<W: Write>(&self, out: &mut W) -> io::Result<()> {
        match self {
            OpenView::Array { begun } => {
                let mut buffer = Buffer::new();
                out.write_all(b"[")?;
                out.write_all(buffer.format(*begun).as_bytes())?;
                out.write_all(b"] ")
            }
            OpenView::Object => Ok(()),
            OpenView::Template { keys, next } => match next {
                Some(field) => field.put_name(keys, out),
                None => Ok(()),
            },
        }
    }

    /// Notes a key of a template. The error is that there is no memory for it.
    pub(crate) fn put_key(&mut self, alloc: Global, key: &str) -> Result<(), AllocError> {
        if let OpenView::Template { keys, next: _ } = self {
            keys.push(format!(in alloc; "{key:?}: ")?)?;
        }
        Ok(())
    }

    /// Notes that the keys of a template are told, and its rows come.
    pub(crate) fn begin_rows(&mut self) {
        if let OpenView::Template { keys: _, next } = self {
            *next = Some(RowLabel::first_of(0));
        }
    }
}

impl RowLabel {
    /// The field behind this one, where a row has `width` fields.
    fn behind(&self, width: usize) -> RowLabel {
        let column = self.column.saturating_add(1);
        if column < width {
            let mut field = *self;
            field.column = column;
            return field;
        }
        RowLabel::first_of(self.row.saturating_add(1))
    }

    /// The first field of this row.
    fn first_of(row: usize) -> RowLabel {
        let mut label = [b' '; LABEL];
        let digits = put_digits(&mut label, row as u64, LABEL - 1);
        let start = digits - ROW.len();
        label[start..digits].copy_from_slice(ROW);
        RowLabel {
            row,
            column: 0,
            label,
            start,
        }
    }

    /// Puts its row and its key, which is among these.
    #[inline(always)]
    fn put_name<W: Write>(&self, keys: &[String], out: &mut W) -> io::Result<()> {
        let Some(key) = keys.get(self.column) else {
            return Ok(());
        };
        out.write_all(&self.label[self.start.min(LABEL)..])?;
        out.write_all(key.as_bytes())
    }
}
