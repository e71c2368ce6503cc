//! The entries of an object in rising byte order of their keys.
ghost use Rattle.std.specs.Prelude.{◌≡◌, ℕ, List, IfOk, IsTrue, option_map};
ghost use Rattle.bser_format.specs.Normal.{last_entries};
ghost use Rattle.bser_format.specs.Tree.{Tree};
ghost use Rattle.bser_value.specs.Contents.{as_object};
ghost use Rattle.bser_document.specs.Holds.{HoldsItem};
ghost use Rattle.bser_document.specs.Pairs.{HoldsEntries};
ghost use Rattle.bser_document.specs.Sorted.{Lists, FindsSorted, IsAbove};

use crate::entries::Entries;
use crate::item::Item;
use std::alloc::{AllocError, Global};
use std::collections::BTreeMap;

impl<'d> Item<'d> {
    /// The entries of an object in rising byte order of their keys, each key once with its last
    /// value, and `None` for all that is no object. The error is that there is no memory for them.
    pub(crate) fn sorted(
        self,
        alloc: Global,
    ) -> Result<Option<BTreeMap<&'d str, Item<'d>>>, AllocError>
        ensures { (u : Tree) → HoldsItem self.entry u
            → IfOk result (FindsSorted (as_object u)) }
    {
        match self.entries() {
            Some(entries) => Ok(Some(entries.sorted(alloc)?)),
            None => Ok(None),
        }
    }
}

impl<'d> Entries<'d> {
    /// Returns the entries in rising byte order of their keys, each key once with its last value.
    /// The error is that there is no memory for them.
    pub fn sorted(self, alloc: Global) -> Result<BTreeMap<&'d str, Item<'d>>, AllocError>
        ensures { (m : List (List ℕ × Tree)) → HoldsEntries self.entry m
            → IfOk result (λ map. Lists (last_entries m) map.entries) }
    {
        let mut sorted = BTreeMap::new(alloc);
        for entry in self {
            sorted.insert(entry.key, entry.value)?;
        }
        Ok(sorted)
    }

    /// Whether each key is above the one before it. The contract says what `true` means; `false` promises
    /// nothing.
    pub fn is_rising(self) -> bool
        ensures { (m : List (List ℕ × Tree)) → HoldsEntries self.entry m
            → IsTrue result → last_entries m ≡ m }
    {
        let mut before = None;
        for entry in self {
            if !is_above(before, entry.key) {
                return false;
            }
            before = Some(entry.key);
        }
        true
    }
}

/// Whether a key is above the one before it, where there is one.
#[inline(always)]
fn is_above(before: Option<&str>, key: &str) -> bool
    ensures { IsTrue result → IsAbove (option_map (λ k. k.now) before.entry) key.now }
{
    match before {
        Some(before) => before < key,
        None => true,
    }
}
