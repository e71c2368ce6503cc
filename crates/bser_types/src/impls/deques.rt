//! Queues. A template is read as the array of its rows.
ghost use Rattle.std.specs.Prelude.{◌≡◌, refl, Some, option_map};
ghost use Rattle.bser_format.specs.ReadsHolders.{reads_vec};
ghost use Rattle.bser_deserializer.specs.HoldsLists.{HoldsList};
ghost use Rattle.bser_types.specs.Askings.{asking_vec};
ghost use Rattle.bser_types.specs.Collected.{list_needs};

use crate::collects::{Collects, read_items};
use crate::deserialize::{Deserialize, OwnedShape, Shape};
use bser_bunser::refusal::Answer;
use bser_deserializer::deserializer::Deserializer;
use bser_source::read::DeRead;
use bser_source::reference::LendsText;
use std::alloc::Global;
use std::collections::VecDeque;

/// An array of any number of items, the first at the front. Out of memory is
/// [`Error::OutOfMemory`].
///
/// [`Error::OutOfMemory`]: bser_format::errors::Error::OutOfMemory
impl<T: Shape> Shape for VecDeque<T> {
    ghost reads = { reads_vec T.reads };

    ghost holds = { λ q c. HoldsList T.holds q.items c };

    ghost needs = { list_needs T.needs };

    ghost asks = { option_map asking_vec T.asks };

    ghost plain = { Some (λ _. refl) };
}

impl<L: LendsText, T: Deserialize<L>> Deserialize<L> for VecDeque<T> {
    fn deserialize<R: DeRead<Lent = L>>(
        alloc: Global,
        from: &mut Deserializer<R>,
    ) -> Answer<VecDeque<T>> {
        read_items(alloc, from, VecDeque::new(alloc))
    }
}

impl<T: Drop> Collects<T> for VecDeque<T> {
    ghost collected = { λ vs q. q.items ≡ vs };

    #[inline(always)]
    fn collect(&mut self, item: T) -> bool {
        self.push_back(item).is_ok()
    }
}

impl<T: OwnedShape> OwnedShape for VecDeque<T> {
    ghost owned = { T.owned };
}
