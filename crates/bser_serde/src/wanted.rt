//! Values that are wanted of some bytes.
use serde::{Deserialize, DeserializeOwned, Deserializer, Format};
use std::alloc::Global;
use std::marker::PhantomData;

/// What is wanted, and the bytes that it is read from. It has no lifetime in its name, so that a
/// call over it may tell which bytes these are.
pub(crate) trait WantedValue: Drop {
    type Value: Drop;

    /// Reads it by this format.
    fn read<F: Format>(&self, alloc: Global, format: &mut F) -> Result<Self::Value, F::Error>;
}

/// A value that may borrow from the bytes.
#[derive(Drop)]
pub(crate) struct Lent<'de, T> {
    bytes: &'de [u8],
    of: PhantomData<T>,
}

/// A value that owns what it holds.
#[derive(Drop)]
pub(crate) struct Owned<'b, T> {
    bytes: &'b [u8],
    of: PhantomData<T>,
}

impl<'de, T> Lent<'de, T> {
    pub(crate) fn of(bytes: &'de [u8]) -> Lent<'de, T> {
        Lent {
            bytes,
            of: PhantomData,
        }
    }
}

impl<'b, T> Owned<'b, T> {
    pub(crate) fn of(bytes: &'b [u8]) -> Owned<'b, T> {
        Owned {
            bytes,
            of: PhantomData,
        }
    }
}

impl<'de, T: Deserialize<'de>> WantedValue for Lent<'de, T> {
    type Value = T;

    #[inline(always)]
    fn read<F: Format>(&self, alloc: Global, format: &mut F) -> Result<T, F::Error> {
        T::deserialize(alloc, &mut Deserializer::new(self.bytes, format))
    }
}

impl<'b, T: DeserializeOwned> WantedValue for Owned<'b, T> {
    type Value = T;

    #[inline(always)]
    fn read<F: Format>(&self, alloc: Global, format: &mut F) -> Result<T, F::Error> {
        T::deserialize_owned(alloc, &mut Deserializer::new(self.bytes, format))
    }
}
