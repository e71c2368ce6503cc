//! Writing a struct by its fields.
ghost use Rattle.std.specs.Prelude.{ℕ, List, [], ◌∷◌, ◌++◌, length, Result, OnOk, IfErr};
ghost use Rattle.bser_format.specs.Tree.{Tree};
ghost use Rattle.bser_format.specs.declared.errors.Error.{Error};
ghost use Rattle.bser_ser.specs.Ends.{CanBeWritten};
ghost use Rattle.bser_structs.specs.Entries.{entries_tree, given_entry, EntriesCanBeWritten, IsCount, EntriesEnd, EntriesStop, ObjectEnds, ObjectStops};

use bser_format::errors::Result;
use bser_ser::{Parts, Serialize, Serializer};
use bser_source::device::Sink;
use std::alloc::Global;

/// A field that is written: its name beside its value, as `(&str, &T)` or `(&str, Given<T>)`.
pub trait PutField {
    // the entries that it is: one, or none where it is left out
    ghost entry: { Self → List (List ℕ × Result Tree Error) };

    /// Returns how many entries the field is.
    fn count(&self) -> usize
        ensures { IsCount (length (entry self.now)) result };

    /// Puts its key and its value, or nothing where it is left out.
    ///
    /// Fails as [`put_key`](Serializer::put_key) and the value's writing do. After an error the
    /// parts before it have been put.
    fn put<W: Sink>(&self, alloc: Global, out: &mut Serializer<W>) -> Result<()>
        ensures ok { OnOk result (EntriesEnd W.Sink (entry self.now) out.old out.new) }
        ensures writable { OnOk result (EntriesCanBeWritten (entry self.now)) }
        ensures err { IfErr result (EntriesStop W.Sink (entry self.now) out.old out.new) };
}

impl<'a, 'b, T: Serialize> PutField for (&'a str, &'b T) {
    ghost entry = { λ f. (f.0.now, T.meaning f.1.now) ∷ [] };

    #[inline(always)]
    fn count(&self) -> usize {
        1
    }

    #[inline(always)]
    fn put<W: Sink>(&self, alloc: Global, out: &mut Serializer<W>) -> Result<()> {
        match out.add_text_key(self.0) {
            Ok(()) => self.1.serialize(alloc, out),
            Err(_) => Err(out.refusal()),
        }
    }
}

/// A value whose field is left out where it is `None`.
#[derive(Drop)]
pub struct Given<'a, T>(pub &'a Option<T>);

impl<'a, 'b, T: Serialize> PutField for (&'a str, Given<'b, T>) {
    ghost entry = { λ f. given_entry f.0.now T.meaning f.1.0.now };

    #[inline(always)]
    fn count(&self) -> usize {
        match self.1.0 {
            Some(_) => 1,
            None => 0,
        }
    }

    #[inline(always)]
    fn put<W: Sink>(&self, alloc: Global, out: &mut Serializer<W>) -> Result<()> {
        match self.1.0 {
            Some(value) => (self.0, value).put(alloc, out),
            None => Ok(()),
        }
    }
}

/// The fields of a struct that is written: pairs of a field and the others, up to `()`.
pub trait PutFields {
    // the entries that they are
    ghost entries: { Self → List (List ℕ × Result Tree Error) };

    /// Returns how many entries the fields are.
    fn count(&self) -> usize
        ensures { IsCount (length (entries self.now)) result };

    /// Puts their keys and values, in their order.
    ///
    /// Fails as [`PutField::put`] does.
    fn put_each<W: Sink>(&self, alloc: Global, out: &mut Serializer<W>) -> Result<()>
        ensures ok { OnOk result (EntriesEnd W.Sink (entries self.now) out.old out.new) }
        ensures writable { OnOk result (EntriesCanBeWritten (entries self.now)) }
        ensures err { IfErr result (EntriesStop W.Sink (entries self.now) out.old out.new) };
}

impl PutFields for () {
    ghost entries = { λ _. [] };

    #[inline(always)]
    fn count(&self) -> usize {
        0
    }

    #[inline(always)]
    fn put_each<W: Sink>(&self, _alloc: Global, _out: &mut Serializer<W>) -> Result<()> {
        Ok(())
    }
}

impl<A: PutField, F: PutFields> PutFields for (A, F) {
    ghost entries = { λ t. A.entry t.0 ++ F.entries t.1 };

    #[inline(always)]
    fn count(&self) -> usize {
        self.0.count().saturating_add(self.1.count())
    }

    #[inline(always)]
    fn put_each<W: Sink>(&self, alloc: Global, out: &mut Serializer<W>) -> Result<()> {
        self.0.put(alloc, out)?;
        self.1.put_each(alloc, out)
    }
}

/// Puts a struct, the object of these fields, in their order.
///
/// More than `i64::MAX` fields are `SerCustom` `CountTooGreat`; else it fails as the first part
/// that does. After an error the parts before it have been put.
#[inline(always)]
pub fn put_fields<W: Sink, F: PutFields>(
    alloc: Global,
    out: &mut Serializer<W>,
    fields: &F,
) -> Result<()>
    ensures ok { OnOk result (ObjectEnds W.Sink (F.entries fields.now) out.old out.new) }
    ensures writable { OnOk result (CanBeWritten (entries_tree (F.entries fields.now))) }
    ensures err { IfErr result (ObjectStops W.Sink (F.entries fields.now) out.old out.new) }
{
    out.put_map(Some(fields.count()))?;
    fields.put_each(alloc, out)
}

/// The value of a field, as it is put.
#[macro_export]
macro_rules! field_given {
    (Required $value:expr) => { $value };
    (Nullable $value:expr) => { $value };
    (Optional $value:expr) => { $crate::Given($value) };
}

/// The fields of a struct, as pairs of one and the others, up to `()`.
#[macro_export]
macro_rules! fields_given {
    ($of:expr,) => { () };
    ($of:expr, $field:ident: $slot:ident($name:literal) $(, $($others:tt)*)?) => {
        (
            ($name, $crate::field_given!($slot &$of.$field)),
            $crate::fields_given!($of, $($($others)*)?),
        )
    };
}

/// Puts a struct, the object of these fields in their order, by [`put_fields`](crate::put_fields),
/// and fails as it does.
///
/// Each field is written with its name. A `Required` one is put whatever it is; an `Optional` one
/// is left out where it is `None`, and a `Nullable` one is null there.
#[macro_export]
macro_rules! put_struct {
    ($alloc:expr, $out:expr, $of:expr, { $($fields:tt)* }) => {
        $crate::put_fields($alloc, $out, &$crate::fields_given!($of, $($fields)*))
    };
}
