//! Arrays of a fixed length, which are read as tuples of equal parts. A template is read as the
//! array of its rows.
ghost use Rattle.std.specs.Prelude.{true, false, refl, Some};
ghost use Rattle.bser_deserializer.specs.HoldsLists.{HoldsList};
ghost use Rattle.bser_types.specs.Arrays.{reads_array, asking_array};

use crate::container::ReadsContainers;
use crate::deserialize::{Deserialize, OwnedShape, Shape};
use bser_bunser::refusal::Answer;
use bser_deserializer::deserializer::Deserializer;
use bser_format::errors::Error;
use bser_source::read::DeRead;
use bser_source::reference::LendsText;
use std::alloc::Global;

/// An array of `N` items. Fewer are [`Complaint::TooFewItems`], more [`Complaint::ItemsLeft`]. It
/// takes memory while it is read, and out of memory is [`Error::OutOfMemory`].
///
/// [`Complaint::TooFewItems`]: bser_format::errors::Complaint::TooFewItems
/// [`Complaint::ItemsLeft`]: bser_format::errors::Complaint::ItemsLeft
/// [`Error::OutOfMemory`]: bser_format::errors::Error::OutOfMemory
impl<T: Shape, const N: usize> Shape for [T; N] {
    ghost reads = { reads_array N T.reads };

    ghost holds = { HoldsList T.holds };

    ghost needs = { record { lent = T.needs.lent; memory = true; keys = false; copied = true } };

    ghost asks = { asking_array N T.asks };

    ghost plain = { Some (λ _. refl) };
}

impl<L: LendsText, T: Deserialize<L>, const N: usize> Deserialize<L> for [T; N] {
    fn deserialize<R: DeRead<Lent = L>>(
        alloc: Global,
        from: &mut Deserializer<R>,
    ) -> Answer<[T; N]> {
        let mut items = Vec::new(alloc);
        let mut seq = from.read_seq()?;
        while items.len() < N {
            let item = seq.required_element::<T>(alloc)?;
            match items.push(item) {
                Ok(()) => {}
                Err(_) => return Err(seq.refuse(Error::OutOfMemory)),
            }
        }
        seq.end()?;
        match <[T; N]>::try_from(items) {
            Ok(array) => Ok(array),
            Err(_) => unreachable!(),
        }
    }
}

impl<T: OwnedShape, const N: usize> OwnedShape for [T; N] {
    ghost owned = { T.owned };
}
