//! Maps by the hashes of their keys.
ghost use Rattle.std.specs.Prelude.{◌||◌, None};
ghost use Rattle.std.proofs.Common.{ap, ◌∙◌};
ghost use Rattle.bser_format.specs.ReadsHolders.{reads_map};
ghost use Rattle.bser_deserializer.specs.HoldsMaps.{HoldsNames, HoldsHashMap};
ghost use Rattle.bser_types.specs.Askings.{asking_map};
ghost use Rattle.bser_types.specs.Collected.{map_needs};

use crate::collects::{CollectsEntries, read_entries};
use crate::deserialize::{Deserialize, OwnedShape, Shape};
use crate::impls::keys::MapKey;
use bser_bunser::refusal::Answer;
use bser_deserializer::deserializer::Deserializer;
use bser_source::read::DeRead;
use bser_source::reference::LendsText;
use std::alloc::Global;
use std::collections::HashMap;

/// An object, or a template's row. The last of equal keys stays, and each value is to be one that
/// the type reads, also where another one replaces it.
///
/// The hasher is that of `HashMap::new`, whose seed is fixed: who picks the keys can make them
/// collide. A `BTreeMap` serves against that.
impl<K: MapKey, V: Shape> Shape for HashMap<K, V> {
    ghost reads = { reads_map K.reads V.reads };

    ghost holds = { λ m. HoldsHashMap K.name V.holds m.entries };

    ghost needs = { map_needs K.needs V.needs };

    ghost asks = { asking_map K.asks V.asks };

    ghost plain = { None };
}

impl<L: LendsText, K: MapKey + Deserialize<L>, V: Deserialize<L>> Deserialize<L> for HashMap<K, V> {
    fn deserialize<R: DeRead<Lent = L>>(
        alloc: Global,
        from: &mut Deserializer<R>,
    ) -> Answer<HashMap<K, V>> {
        read_entries(alloc, from, HashMap::new(alloc))
    }
}

impl<K: MapKey + Drop, V: Shape + Drop> CollectsEntries<K, V> for HashMap<K, V> {
    ghost pairs = { λ m ps. HoldsNames K.name V.holds m.entries ps };

    #[inline(always)]
    fn put(&mut self, key: K, value: V) -> bool {
        self.insert(key, value).is_ok()
    }
}

impl<K: MapKey + OwnedShape, V: OwnedShape> OwnedShape for HashMap<K, V> {
    ghost owned = { ap (λ k. k || V.needs.lent) K.owned ∙ V.owned };
}
