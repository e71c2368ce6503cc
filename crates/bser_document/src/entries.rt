//! The entries of an object, one after the other, and the value at a key.
ghost use Rattle.std.specs.Prelude.{◌≡◌, ℕ, List, length, Option, None, Some, cond};
ghost use Rattle.bser_format.specs.SameTree.{same_bytes};
ghost use Rattle.bser_format.specs.Tree.{Tree};
ghost use Rattle.bser_value.specs.Contents.{as_object, get};
ghost use Rattle.bser_document.specs.Holds.{HoldsItem};
ghost use Rattle.bser_document.specs.Pairs.{HoldsEntries, FindsEntries, FindsItem, IsKeyAt, last_from};

use crate::document::{Document, DocumentNode};
use crate::item::Item;

/// The entries of an object that are still to come, as they are spelled, or the keys of a row with
/// its fields.
#[derive(Clone, Copy)]
pub struct Entries<'d> {
    document: &'d Document,
    at: usize,
    left: usize,
    // the place of a row's next key, and none for an object's entries
    key: Option<usize>,
}

/// A key and its value.
#[derive(Clone, Copy)]
pub struct Entry<'d> {
    /// The key.
    pub key: &'d str,
    /// The value.
    pub value: Item<'d>,
}

impl<'d> Iterator for Entries<'d> {
    ghost use Rattle.std.specs.Iterator.{at_most};
    ghost use Rattle.bser_document.specs.Pairs.{StepsOverEntries};

    type Item = Entry<'d>;

    ghost next_gives = { StepsOverEntries };

    ghost remaining = { λ s. at_most s.left };

    fn next(&mut self) -> Option<Entry<'d>> {
        if self.left == 0 {
            return None;
        }
        self.left -= 1;
        match self.key {
            Some(key) => {
                let value = Item {
                    document: self.document,
                    at: self.at,
                    keys: None,
                };
                self.at = self.document.behind(self.at);
                self.key = Some(self.document.place(key, 1));
                Some(Entry {
                    key: self.document.key(key),
                    value,
                })
            }
            None => {
                let key = self.document.key(self.at);
                let at = self.document.place(self.at, 1);
                self.at = self.document.behind(at);
                let value = Item {
                    document: self.document,
                    at,
                    keys: None,
                };
                Some(Entry { key, value })
            }
        }
    }
}

impl<'d> Entries<'d> {
    /// Returns how many entries are still to come.
    pub fn len(&self) -> usize
        ensures { (m : List (List ℕ × Tree)) → HoldsEntries self.now m → result ≡ length m }
    {
        self.left
    }

    /// The value of the last entry with this key.
    fn last(self, key: &str) -> Option<Item<'d>>
        ensures { (m : List (List ℕ × Tree)) → HoldsEntries self.entry m
            → FindsItem (last_from None key.now m) result }
    {
        let mut rest = self;
        let mut found = None;
        for _ in 0..self.left {
            match rest.next() {
                Some(entry) => found = pick(found, entry, entry.key == key),
                None => return found,
            }
        }
        found
    }
}

impl<'d> Item<'d> {
    /// Returns the entries of an object, of a row its keys and fields, and `None` for all else.
    /// They come as they are spelled: keys that are there twice come twice.
    pub fn entries(self) -> Option<Entries<'d>>
        ensures { (u : Tree) → HoldsItem self.entry u → FindsEntries (as_object u) result }
    {
        let DocumentNode::Object { len, end: _ } = self.node() else {
            return None;
        };
        match self.keys {
            Some(keys) => Some(Entries {
                document: self.document,
                at: self.at,
                left: len,
                key: Some(keys.at),
            }),
            None => Some(Entries {
                document: self.document,
                at: self.document.place(self.at, 1),
                left: len,
                key: None,
            }),
        }
    }

    /// Returns the value at this key of an object, of equal keys the last. `None` where the object
    /// has no such key, and for every value that is no object.
    pub fn get(self, key: &str) -> Option<Item<'d>>
        ensures { (u : Tree) → HoldsItem self.entry u → FindsItem (get key.now u) result }
    {
        match self.entries() {
            Some(entries) => entries.last(key),
            None => None,
        }
    }
}

impl Document {
    /// The key at this place.
    #[inline(always)]
    pub(crate) fn key(&self, at: usize) -> &str
        ensures { IsKeyAt self.now at result.now }
    {
        match self.node(at) {
            DocumentNode::Key { len, at } => self.text(len, at),
            _ => "",
        }
    }
}

/// The entry's value where it is wanted, and else what was found before.
#[inline(always)]
pub(crate) fn pick<'d>(
    found: Option<Item<'d>>,
    entry: Entry<'d>,
    is_wanted: bool,
) -> Option<Item<'d>>
    ensures { result ≡ cond is_wanted (Some entry.entry.value) found.entry }
{
    if is_wanted { Some(entry.value) } else { found }
}
