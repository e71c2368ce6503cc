//! The list of a struct's fields, and what their types are read and written as.
ghost use Rattle.std.specs.Prelude.{List};
ghost use Rattle.bser_structs.specs.Fields.{Coding, FieldOf, read_alone, written_alone};

use bser_ser::Serialize;
use bser_types::deserialize::Shape;

/// A struct, by the list of its fields.
pub trait Fields {
    // each field: its name, the part of the struct that it is, and the coding of its type
    ghost fields: { List (FieldOf Self) };
}

/// A type that is read and written.
///
/// Each type is one that is [`Shape`] and [`Serialize`].
pub trait Codec {
    // what it is read as and written as
    ghost coding: { Coding Self };
}

impl<T: Shape + Serialize> Codec for T {
    ghost coding = { record {
      reads = T.reads;
      holds = T.holds;
      needs = T.needs;
      asks = T.asks;
      tree = T.meaning;
    } };
}

/// A type that is read, in a struct that is not written. Each type is one that is [`Shape`].
pub trait ReadOnly {
    // what it is read as
    ghost coding: { Coding Self };
}

impl<T: Shape> ReadOnly for T {
    ghost coding = { read_alone T.reads T.holds T.needs T.asks };
}

/// A type that is written, in a struct that is not read. Each type is one that is [`Serialize`].
pub trait WriteOnly {
    // what it is written as
    ghost coding: { Coding Self };
}

impl<T: Serialize> WriteOnly for T {
    ghost coding = { written_alone T.meaning };
}
