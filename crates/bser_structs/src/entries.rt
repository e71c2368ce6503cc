//! The entries of an object or a row, read as the fields of a struct.
ghost use Rattle.std.specs.Prelude.{◌≡◌, ◌<◌, List, length, None, Some, false, IfOk, OnOk, OnErr};
ghost use Rattle.bser_types.specs.Accesses.{texts};
ghost use Rattle.bser_types.specs.Slots.{StructField};
ghost use Rattle.bser_structs.specs.FieldCalls.{Complains, NamesKey};
ghost use Rattle.bser_structs.specs.Structs.{ReadsOpen, RefusesOpen, Closes, ReadsName, RefusesName, Steps, fill_by, RefusesBy, ReadsRow, RefusesRow, EndAs};

use crate::slots::Slots;
use bser_bunser::refusal::{Answer, Refused};
use bser_deserializer::container::{Containers, MapHead};
use bser_deserializer::cursor::{Cursor, keys_of};
use bser_deserializer::deserializer::Deserializer;
use bser_deserializer::field::{Field, find_field};
use bser_deserializer::note::Finding;
use bser_format::errors::Complaint;
use bser_source::read::DeRead;
use bser_source::reference::{Lending, LendsText};
use bser_types::deserialize::Deserialize;
use bser_types::impls::ignored::Ignored;
use std::alloc::Global;

/// Reads the fields of the row from this place on, in any order.
#[inline(always)]
pub(crate) fn read_rest<R: DeRead, F: Slots<R::Lent>>(
    alloc: Global,
    from: &mut Deserializer<R>,
    at: usize,
    names: &[&str],
    fields: F,
) -> Answer<F>
where
    R::Lent: LendsText,
    requires { (ss : List StructField) × F.keeps fields ss }
    ensures found { IfOk result (ReadsRow names.now F.keeps fields at from.old from.new) }
    ensures refused { OnErr result (RefusesRow names.now F.fields F.asks F.needs (F.keeps fields) at
        from.old from.new) }
{
    let mut fields = fields;
    let mut place = at;
    while place < keys_of(from).len() {
        let field = row_field(from, place, names);
        from.await_field();
        read_value(alloc, from, field, names, &mut fields)?;
        place += 1;
    }
    Ok(fields)
}

/// Reads the entries of the object that was opened, in any order, and closes it.
#[inline(never)]
pub(crate) fn read_object<R: DeRead, F: Slots<R::Lent>>(
    alloc: Global,
    from: &mut Deserializer<R>,
    head: MapHead,
    names: &[&str],
) -> Answer<F::Values>
where
    R::Lent: LendsText,
    requires { head.row ≡ false }
    ensures found { IfOk result (ReadsOpen names.now F.fields F.holds head from.old from.new) }
    ensures refused { OnErr result (RefusesOpen names.now F.fields F.asks F.needs head
        from.old from.new) }
{
    let mut fields = F::empty();
    let mut scratch = Vec::new(alloc);
    let mut head = head;
    while head.at != 0 {
        from.await_key();
        let field = read_name(from, &mut scratch, names)?;
        from.await_node();
        read_value(alloc, from, field, names, &mut fields)?;
        head.at -= 1;
    }
    finish(from, head, names, fields)
}

/// The first place in `names` of the row's key at this place.
#[inline(always)]
fn row_field<R: DeRead>(from: &Deserializer<R>, at: usize, names: &[&str]) -> Field
where
    R::Lent: LendsText,
    requires { at < length from.now.state.keys }
    ensures { NamesKey (texts names.now) at from.now.state result }
{
    let name = <R::Lent as Lending>::kept_text(&keys_of(from)[at]);
    find_field(names, name.as_bytes())
}

/// Reads the key that is expected, as its first place in `names`.
#[inline(always)]
fn read_name<R: DeRead>(
    from: &mut Deserializer<R>,
    scratch: &mut Vec<u8>,
    names: &[&str],
) -> Answer<Field>
where
    R::Lent: LendsText,
    ensures found { IfOk result (ReadsName names.now from.old from.new) }
    ensures refused { OnErr result (RefusesName from.old from.new) }
{
    let name = from.read_key(scratch)?;
    Ok(find_field(names, name.get_ref().as_bytes()))
}

/// Reads the value that is expected as that of this field, whose name an error notes. The value of
/// no field is passed over.
#[inline(always)]
fn read_value<R: DeRead, F: Slots<R::Lent>>(
    alloc: Global,
    from: &mut Deserializer<R>,
    field: Field,
    names: &[&str],
    fields: &mut F,
) -> Answer<()>
where
    R::Lent: LendsText,
    ensures found { OnOk result (Steps (fill_by field) F.keeps fields.old fields.new
        from.old from.new) }
    ensures refused { OnErr result (RefusesBy field F.fields F.asks F.needs
        (F.keeps fields.old) from.old from.new) }
{
    match field {
        Field::Known(place) => {
            let answer = fields.fill_at(alloc, place, from);
            from.in_field(answer, names, place)
        }
        Field::Unknown => {
            Ignored::deserialize(alloc, from)?;
            Ok(())
        }
    }
}

/// Closes the object or row, where each required field was read.
#[inline(always)]
pub(crate) fn finish<R: DeRead, F: Slots<R::Lent>>(
    from: &mut Deserializer<R>,
    head: MapHead,
    names: &[&str],
    fields: F,
) -> Answer<F::Values>
where
    R::Lent: LendsText,
    ensures values { IfOk result (λ v. EndAs F.holds (F.keeps fields) (Some v)) }
    ensures closed { OnOk result (Closes head from.old from.new) }
    ensures absent { OnErr result (EndAs F.holds (F.keeps fields) None) }
    ensures refused { OnErr result (Complains Complaint.TooFewItems from.old from.new) }
{
    match fields.finish() {
        Ok(values) => {
            from.close_pairs(head);
            Ok(values)
        }
        Err(place) => Err(refuse_missing(from, names, place)),
    }
}

/// Fails because the field of this place is missing, and notes its name.
#[cold]
#[inline(never)]
fn refuse_missing<R: DeRead>(from: &mut Deserializer<R>, names: &[&str], place: usize) -> Refused
    ensures { Complains Complaint.TooFewItems from.old from.new }
{
    let refused = from.complain_of(Complaint::TooFewItems, Finding::Missing);
    from.note_field(names, place);
    refused
}
