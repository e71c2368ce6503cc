//! Byte strings as values of serde's.
use serde::{
    Described, Deserialize, DeserializeOwned, Deserializer, Format, Serialize, Serializer,
};
use serde_bser::bytestring::ByteString;
use std::alloc::Global;
use std::fmt;

/// A byte string that is owned. It is read from a byte string or a text, and written as a byte
/// string. A `Vec<u8>` is an array of numbers. It prints as its [`ByteString`] does.
#[derive(Debug, PartialEq, Eq, PartialOrd, Ord, Drop)]
pub struct ByteBuf(pub ByteString);

/// A byte string that is borrowed from a slice. It is read and written as a [`ByteBuf`] is.
#[derive(Debug, Clone, Copy, PartialEq, Eq, PartialOrd, Ord, Drop)]
pub struct Bytes<'a>(pub &'a [u8]);

impl fmt::Display for ByteBuf {
    fn fmt<W: fmt::Write>(&self, f: &mut fmt::Formatter<W>) -> fmt::Result {
        write!(f, "{}", self.0)
    }
}

impl Described for ByteBuf {}

impl Serialize for ByteBuf {
    fn serialize<S: Serializer>(&self, out: &mut S) -> Result<(), S::Error> {
        out.bytes(self.0.as_bytes())
    }
}

impl DeserializeOwned for ByteBuf {
    fn deserialize_owned<F: Format>(
        alloc: Global,
        from: &mut Deserializer<'_, '_, F>,
    ) -> Result<ByteBuf, F::Error> {
        Ok(ByteBuf(ByteString::from_vec(from.byte_buf(alloc)?)))
    }
}

impl<'de> Deserialize<'de> for ByteBuf {
    fn deserialize<F: Format>(
        alloc: Global,
        from: &mut Deserializer<'de, '_, F>,
    ) -> Result<ByteBuf, F::Error> {
        ByteBuf::deserialize_owned(alloc, from)
    }
}

impl<'a> Described for Bytes<'a> {}

impl<'a> Serialize for Bytes<'a> {
    fn serialize<S: Serializer>(&self, out: &mut S) -> Result<(), S::Error> {
        out.bytes(self.0)
    }
}

impl<'de> Deserialize<'de> for Bytes<'de> {
    fn deserialize<F: Format>(
        _alloc: Global,
        from: &mut Deserializer<'de, '_, F>,
    ) -> Result<Bytes<'de>, F::Error> {
        Ok(Bytes(from.borrowed_bytes()?))
    }
}
