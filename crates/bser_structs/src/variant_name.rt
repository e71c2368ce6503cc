//! The names of an enum's variants.
ghost use Rattle.std.specs.Prelude.{◌≡◌, Some, IfOk, OnErr, OnOk};
ghost use Rattle.bser_deserializer.specs.Calls.{complained};
ghost use Rattle.bser_deserializer.specs.State.{refused};
ghost use Rattle.bser_structs.specs.VariantCalls.{Finds, FindsField, FindsKey, HasFailed, Misses, MissesKey, awaiting_first_key, entries_left};

use bser_bunser::refusal::{Answer, Refused};
use bser_deserializer::container::MapHead;
use bser_deserializer::cursor::{Cursor, keys_of, name_of};
use bser_deserializer::deserializer::Deserializer;
use bser_deserializer::field::{Field, find_field};
use bser_format::errors::Complaint;
use bser_source::read::DeRead;
use bser_source::reference::{Lending, LendsText};

/// Reads the name that is expected, as its first place in `variants`.
pub(crate) fn read_place<R: DeRead>(from: &mut Deserializer<R>, variants: &[&str]) -> Answer<usize>
where
    R::Lent: LendsText,
    ensures found { IfOk result (Finds variants.now from.old from.new) }
    ensures err { OnErr result (HasFailed from.old from.new) }
    ensures names { OnErr result (Misses variants.now from.old from.new) }
{
    let begun = from.taken();
    match read_name(from, variants)? {
        Field::Known(place) => Ok(place),
        Field::Unknown => Err(refuse_name(from, begun)),
    }
}

/// Fails for a name that no variant has, which began behind so many bytes.
#[cold]
#[inline(never)]
fn refuse_name<R: DeRead>(from: &mut Deserializer<R>, begun: usize) -> Refused
    ensures reason { from.new.refusal ≡ complained Complaint.UnknownVariant from.old }
    ensures state { from.new.state ≡ refused from.old.state }
    ensures begun { from.new.note.begun ≡ Some begun }
{
    from.note_begun(begun);
    from.complain(Complaint::UnknownVariant)
}

/// Reads the name that is expected, and returns its place in `variants`, if it has one.
fn read_name<R: DeRead>(from: &mut Deserializer<R>, variants: &[&str]) -> Answer<Field>
where
    R::Lent: LendsText,
    ensures found { IfOk result (FindsField variants.now from.old from.new) }
    ensures err { OnErr result (HasFailed from.old from.new) }
    ensures names { OnErr result (Misses variants.now from.old from.new) }
{
    if let Some(key) = name_of(from) {
        let name = <R::Lent as Lending>::kept_text(key);
        let field = find_field(variants, name.as_bytes());
        from.await_nothing();
        return Ok(field);
    }
    let mut scratch = Vec::new(from.allocator());
    let name = from.read_text(&mut scratch)?;
    Ok(find_field(variants, name.get_ref().as_bytes()))
}

/// Reads the key of the only entry of the object or row that was opened, as its first place in
/// `variants`.
pub(crate) fn read_only_key<R: DeRead>(
    from: &mut Deserializer<R>,
    head: MapHead,
    variants: &[&str],
) -> Answer<usize>
where
    R::Lent: LendsText,
    ensures single { OnOk result (entries_left head from.old ≡ 1) }
    ensures found { IfOk result (FindsKey variants.now head from.old from.new) }
    ensures err { OnErr result (HasFailed from.old from.new) }
    ensures names { OnErr result (MissesKey variants.now head from.old from.new) }
{
    if entries_in(from, head) != 1 {
        return Err(from.complain(Complaint::EnumObjectEntries));
    }
    await_first_key(from, head);
    read_place(from, variants)
}

/// How many entries an object or a row has.
fn entries_in<R: DeRead>(from: &Deserializer<R>, head: MapHead) -> usize
    ensures { result ≡ entries_left head from.now }
{
    if head.row {
        keys_of(from).len().saturating_sub(head.at)
    } else {
        head.at
    }
}

/// Makes the first key expected.
fn await_first_key<R: DeRead>(from: &mut Deserializer<R>, head: MapHead)
    ensures { from.new.state ≡ awaiting_first_key head from.old }
{
    if head.row {
        from.await_name(head.at);
    } else {
        from.await_key();
    }
}
