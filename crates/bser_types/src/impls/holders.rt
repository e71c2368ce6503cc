//! Reading types that hold another.
ghost use Rattle.std.specs.Prelude.{◌≡◌, true, false, option_map};
ghost use Rattle.bser_deserializer.specs.Holds.{HoldsBox, HoldsOption};
ghost use Rattle.bser_format.specs.Content.{just};
ghost use Rattle.bser_format.specs.ReadsHolders.{reads_option};
ghost use Rattle.bser_types.specs.Askings.{asking_option};
ghost use Rattle.std.proofs.Common.{ap};

use crate::deserialize::{Deserialize, OwnedShape, Shape};
use bser_bunser::refusal::Answer;
use bser_deserializer::cursor::Cursor;
use bser_deserializer::deserializer::Deserializer;
use bser_format::errors::Error;
use bser_source::read::DeRead;
use bser_source::reference::LendsText;
use std::alloc::Global;

/// A null or a skipped field is `None`.
impl<T: Shape> Shape for Option<T> {
    ghost reads = { reads_option T.reads };

    ghost holds = { HoldsOption T.holds };

    ghost needs = { T.needs };

    ghost asks = { option_map asking_option T.asks };

    ghost plain = { option_map (λ none es. ap (option_map just) (none es)) T.plain };
}

impl<L: LendsText, T: Deserialize<L>> Deserialize<L> for Option<T> {
    #[inline(always)]
    fn deserialize<R: DeRead<Lent = L>>(
        alloc: Global,
        from: &mut Deserializer<R>,
    ) -> Answer<Option<T>> {
        if from.read_none()? {
            return Ok(None);
        }
        Ok(Some(T::deserialize(alloc, from)?))
    }
}

impl<T: OwnedShape> OwnedShape for Option<T> {
    ghost owned = { T.owned };
}

/// A `Box` reads what its value does, and takes memory.
impl<T: Shape> Shape for Box<T> {
    ghost reads = { T.reads };

    ghost holds = { HoldsBox T.holds };

    ghost needs = { record {
      lent = T.needs.lent;
      memory = true;
      keys = false;
      copied = T.needs.copied;
    } };

    ghost asks = { T.asks };

    ghost plain = { T.plain };
}

impl<L: LendsText, T: Deserialize<L>> Deserialize<L> for Box<T> {
    #[inline(always)]
    fn deserialize<R: DeRead<Lent = L>>(
        alloc: Global,
        from: &mut Deserializer<R>,
    ) -> Answer<Box<T>> {
        let value = T::deserialize(alloc, from)?;
        match Box::new(alloc, value) {
            Ok(boxed) => Ok(boxed),
            Err(_) => Err(from.refuse(Error::OutOfMemory)),
        }
    }
}

impl<T: OwnedShape> OwnedShape for Box<T> {
    ghost owned = { T.owned };
}
