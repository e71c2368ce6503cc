//! The rows of a template, whose fields are found by the places of their keys.
ghost use Rattle.std.specs.Prelude.{◌≡◌, ℕ, List, length, Option, Some, cond};
ghost use Rattle.bser_format.specs.SameTree.{same_bytes};
ghost use Rattle.bser_format.specs.Tree.{Tree};
ghost use Rattle.bser_document.specs.Holds.{HoldsItem};
ghost use Rattle.bser_document.specs.Pairs.{FindsItem};
ghost use Rattle.bser_document.specs.Rows.{HoldsRows, HoldsRow, FindsRows, LeadsTo, Pair, place_of, field_there};

use crate::document::{Document, DocumentNode};
use crate::item::{Item, Keys};

/// The rows of a template that are still to come.
#[derive(Clone, Copy)]
pub struct Rows<'d> {
    pub(crate) document: &'d Document,
    at: usize,
    left: usize,
    pub(crate) keys: Keys,
}

/// A row of a template.
#[derive(Clone, Copy)]
pub struct Row<'d> {
    pub(crate) document: &'d Document,
    pub(crate) at: usize,
    // how many fields it has
    pub(crate) len: usize,
}

impl<'d> Iterator for Rows<'d> {
    ghost use Rattle.std.specs.Iterator.{at_most};
    ghost use Rattle.bser_document.specs.Rows.{StepsOverRows};

    type Item = Row<'d>;

    ghost next_gives = { StepsOverRows };

    ghost remaining = { λ s. at_most s.left };

    fn next(&mut self) -> Option<Row<'d>> {
        if self.left == 0 {
            return None;
        }
        self.left -= 1;
        let row = Row {
            document: self.document,
            at: self.at,
            len: self.keys.len,
        };
        self.at = self.document.behind_all(self.at, self.keys.len);
        Some(row)
    }
}

impl<'d> Rows<'d> {
    /// Returns how many rows are still to come.
    pub fn len(&self) -> usize
        ensures { (ks : List (List ℕ)) (ms : List (List Pair)) → HoldsRows self.now ks ms
            → result ≡ length ms }
    {
        self.left
    }

    /// Returns the place of a key among those of the template, of equal keys the last. It is the
    /// place of the key's field in each row.
    pub fn place(&self, key: &str) -> Option<usize>
        ensures place { (ks : List (List ℕ)) (ms : List (List Pair)) → HoldsRows self.now ks ms
            → result ≡ place_of key.now ks }
        ensures leads { (ks : List (List ℕ)) (ms : List (List Pair)) → HoldsRows self.now ks ms
            → LeadsTo key.now ks result }
    {
        let mut found = None;
        for place in 0..self.keys.len {
            let at = self.document.place(self.keys.at, place);
            found = pick(found, place, self.document.key(at), key);
        }
        found
    }
}

impl<'d> Row<'d> {
    /// Returns the field at this place, which is null where it is skipped. `None` where the
    /// template has no such key. The fields before it are walked over.
    pub fn field(self, place: usize) -> Option<Item<'d>>
        ensures { (ks : List (List ℕ)) (m : List Pair) → HoldsRow self.entry ks m
            → FindsItem (field_there place m) result }
    {
        if place >= self.len {
            return None;
        }
        Some(Item {
            document: self.document,
            at: self.document.behind_all(self.at, place),
            keys: None,
        })
    }
}

impl<'d> Item<'d> {
    /// Returns the rows of a template, and `None` for all else, an array of objects included. Each
    /// object of such an array is spelled with its own keys.
    pub fn rows(self) -> Option<Rows<'d>>
        ensures { (u : Tree) → HoldsItem self.entry u → FindsRows self.entry u result }
    {
        let DocumentNode::Template { len, end: _ } = self.node() else {
            return None;
        };
        let items = self.all_rows(len);
        match items.keys {
            Some(keys) => Some(Rows {
                document: items.document,
                at: items.at,
                left: items.left,
                keys,
            }),
            None => None,
        }
    }
}

/// This place where its key is the one that is looked for, and else what was found before.
#[inline(always)]
fn pick(found: Option<usize>, place: usize, here: &str, key: &str) -> Option<usize>
    ensures { result ≡ cond (same_bytes key.now here.now) (Some place) found }
{
    if here == key { Some(place) } else { found }
}
