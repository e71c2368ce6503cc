//! The two loops that read collections: a list item by item, and a map entry by entry.
ghost use Rattle.std.specs.Prelude.{◌≡◌, ℕ, List, [], true, IfOk, OnErr, option_map};
ghost use Rattle.bser_format.specs.Content.{Content};
ghost use Rattle.bser_format.specs.ReadsHolders.{reads_vec, reads_map};
ghost use Rattle.bser_types.specs.Accesses.{ReadsDue, RefusesDue};
ghost use Rattle.bser_types.specs.Askings.{asking_vec, asking_map};
ghost use Rattle.bser_types.specs.Collected.{CollectsItem, HoldsCollected, list_needs, PutsEntry, HoldsPut, map_needs};

use crate::container::ReadsContainers;
use crate::deserialize::{Deserialize, Shape};
use crate::impls::keys::MapKey;
use bser_bunser::refusal::Answer;
use bser_deserializer::deserializer::Deserializer;
use bser_format::errors::Error;
use bser_source::read::DeRead;
use bser_source::reference::LendsText;
use std::alloc::Global;

/// A collection that items are put into one after another. It is a trait so that one loop, proved
/// once, reads each of them.
pub(crate) trait Collects<T>: Drop {
    // what these items make of an empty one
    ghost collected: { List T → Self → Type 0 };

    /// Puts the next item in; false if there is no memory.
    fn collect(&mut self, item: T) -> bool
        ensures { result ≡ true → CollectsItem collected self.old self.new item };
}

/// Reads the array or the template that is expected, and puts each item into `empty`.
#[inline(always)]
pub(crate) fn read_items<L, R, T, C>(
    alloc: Global,
    from: &mut Deserializer<R>,
    empty: C,
) -> Answer<C>
where
    L: LendsText,
    R: DeRead<Lent = L>,
    T: Deserialize<L>,
    C: Collects<T>,
    requires { C.collected [] empty }
    ensures found { IfOk result (ReadsDue (reads_vec T.reads) (HoldsCollected C.collected T.holds)
        from.old from.new) }
    ensures refused { OnErr result (RefusesDue (reads_vec T.reads) (option_map asking_vec T.asks)
        (list_needs T.needs) from.old from.new) }
{
    let mut items = empty;
    let mut seq = from.read_seq()?;
    while seq.remaining() != 0 {
        let item = seq.required_element::<T>(alloc)?;
        if !items.collect(item) {
            return Err(seq.refuse(Error::OutOfMemory));
        }
    }
    seq.end()?;
    Ok(items)
}

/// A map that entries are put into one after another. It is a trait so that one loop, proved once,
/// reads each of them.
pub(crate) trait CollectsEntries<K: MapKey, V: Shape>: Drop {
    // the pairs that its entries are
    ghost pairs: { Self → List (List ℕ × Content) → Type 0 };

    /// Puts the next entry in, in place of one of an equal key; false if there is no memory.
    fn put(&mut self, key: K, value: V) -> bool
        ensures { result ≡ true → PutsEntry pairs K.name V.holds self.old self.new key value };
}

/// Reads the object or the row that is expected, and puts each entry into `empty`.
#[inline(always)]
pub(crate) fn read_entries<L, R, K, V, M>(
    alloc: Global,
    from: &mut Deserializer<R>,
    empty: M,
) -> Answer<M>
where
    L: LendsText,
    R: DeRead<Lent = L>,
    K: MapKey + Deserialize<L>,
    V: Deserialize<L>,
    M: CollectsEntries<K, V>,
    requires { M.pairs empty [] }
    ensures found { IfOk result (ReadsDue (reads_map K.reads V.reads) (HoldsPut M.pairs)
        from.old from.new) }
    ensures refused { OnErr result (RefusesDue (reads_map K.reads V.reads)
        (asking_map K.asks V.asks) (map_needs K.needs V.needs) from.old from.new) }
{
    let mut entries = empty;
    let mut map = from.read_map()?;
    while let Some((key, value)) = map.next_entry::<K, V>(alloc)? {
        if !entries.put(key, value) {
            return Err(map.refuse(Error::OutOfMemory));
        }
    }
    map.end()?;
    Ok(entries)
}
