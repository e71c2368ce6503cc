//! Sets in the order of their items. A template is read as the array of its rows.
ghost use Rattle.std.specs.Prelude.{◌≡◌, refl, Some, option_map, []};
ghost use Rattle.bser_format.specs.ReadsHolders.{reads_vec};
ghost use Rattle.bser_types.specs.Askings.{asking_vec};
ghost use Rattle.bser_types.specs.Collected.{list_needs};
ghost use Rattle.bser_types.specs.HoldsSets.{HoldsSet, insert_all};

use crate::collects::{Collects, read_items};
use crate::deserialize::{Deserialize, OwnedShape, Shape};
use bser_bunser::refusal::Answer;
use bser_deserializer::deserializer::Deserializer;
use bser_source::read::DeRead;
use bser_source::reference::LendsText;
use std::alloc::Global;
use std::collections::BTreeSet;

/// An array of any number of items, in any order. The first of equal items stays, and each is to be
/// one that the type reads. Out of memory is [`Error::OutOfMemory`].
///
/// [`Error::OutOfMemory`]: bser_format::errors::Error::OutOfMemory
impl<T: Shape + Ord> Shape for BTreeSet<T> {
    ghost reads = { reads_vec T.reads };

    ghost holds = { λ s. HoldsSet T.cmp T.holds s.keys };

    ghost needs = { list_needs T.needs };

    ghost asks = { option_map asking_vec T.asks };

    ghost plain = { Some (λ _. refl) };
}

impl<L: LendsText, T: Deserialize<L> + Ord> Deserialize<L> for BTreeSet<T> {
    fn deserialize<R: DeRead<Lent = L>>(
        alloc: Global,
        from: &mut Deserializer<R>,
    ) -> Answer<BTreeSet<T>> {
        read_items(alloc, from, BTreeSet::new(alloc))
    }
}

impl<T: Ord + Drop> Collects<T> for BTreeSet<T> {
    ghost collected = { λ vs s. s.keys ≡ insert_all T.cmp [] vs };

    #[inline(always)]
    fn collect(&mut self, item: T) -> bool {
        self.insert(item).is_ok()
    }
}

impl<T: OwnedShape + Ord> OwnedShape for BTreeSet<T> {
    ghost owned = { T.owned };
}
