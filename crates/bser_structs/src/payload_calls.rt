//! The payload of a variant: what an object or a row of one entry has as its value. A name alone
//! has none.
ghost use Rattle.std.specs.Prelude.{◌≡◌, IfOk, OnOk, OnErr};
ghost use Rattle.bser_deserializer.specs.State.{awaiting};
ghost use Rattle.bser_structs.specs.ReadVariants.{payload_due};
ghost use Rattle.bser_structs.specs.VariantCalls.{OpensStructHead, OpensTupleHead, RefusesHeld, RefusesNull, RefusesStructHead, RefusesTupleHead, TakesNull, TakesPayload};

use bser_bunser::refusal::Answer;
use bser_deserializer::container::{Containers, MapHead, SeqHead};
use bser_deserializer::cursor::Cursor;
use bser_deserializer::deserializer::Deserializer;
use bser_format::errors::Complaint;
use bser_source::read::DeRead;
use bser_source::reference::LendsText;
use bser_types::deserialize::Deserialize;
use std::alloc::Global;

/// Makes the payload expected.
pub(crate) fn await_payload<R: DeRead>(from: &mut Deserializer<R>, head: MapHead)
    ensures { from.new.state ≡ awaiting (payload_due head.row) from.old.state }
{
    if head.row {
        from.await_field();
    } else {
        from.await_node();
    }
}

/// Reads null, or a skipped field, as the payload, and closes the variant's object. Of a name alone
/// nothing is read.
#[inline(always)]
pub(crate) fn read_null<R: DeRead>(from: &mut Deserializer<R>, head: Option<MapHead>) -> Answer<()>
    ensures found { OnOk result (TakesNull head from.old from.new) }
    ensures refused { OnErr result (RefusesNull head from.old from.new) }
{
    let Some(head) = head else {
        return Ok(());
    };
    await_payload(from, head);
    from.read_unit()?;
    from.close_pairs(head);
    Ok(())
}

/// Reads the payload as its type does, and closes the variant's object. A name alone is an error.
#[inline(always)]
pub(crate) fn read_payload<R: DeRead, T: Deserialize<R::Lent>>(
    alloc: Global,
    from: &mut Deserializer<R>,
    head: Option<MapHead>,
) -> Answer<T>
where
    R::Lent: LendsText,
    ensures found { IfOk result (TakesPayload head from.old from.new T.reads T.holds) }
    ensures refused { OnErr result
        (RefusesHeld head from.old from.new T.reads T.asks T.needs) }
{
    let Some(head) = head else {
        return Err(from.complain(Complaint::WrongType));
    };
    await_payload(from, head);
    let payload = T::deserialize(alloc, from)?;
    from.close_pairs(head);
    Ok(payload)
}

/// Opens the array or template that is the payload. Its end closes the variant's object too. A name
/// alone is an error.
pub(crate) fn open_payload_items<R: DeRead>(
    from: &mut Deserializer<R>,
    head: Option<MapHead>,
) -> Answer<SeqHead>
    ensures found { IfOk result (OpensTupleHead head from.old from.new) }
    ensures refused { OnErr result (RefusesTupleHead head from.old from.new) }
{
    let Some(head) = head else {
        return Err(from.complain(Complaint::WrongType));
    };
    await_payload(from, head);
    let items = from.open_items()?;
    Ok(SeqHead {
        remaining: items.remaining,
        rows: items.rows,
        levels: head.levels,
        opened: head.opened,
    })
}

/// Opens the object or row that is the payload. Its end closes the variant's object too. A name
/// alone is an error.
pub(crate) fn open_payload_pairs<R: DeRead>(
    from: &mut Deserializer<R>,
    head: Option<MapHead>,
) -> Answer<MapHead>
    ensures found { IfOk result (OpensStructHead head from.old from.new) }
    ensures refused { OnErr result (RefusesStructHead head from.old from.new) }
{
    let Some(head) = head else {
        return Err(from.complain(Complaint::WrongType));
    };
    await_payload(from, head);
    let pairs = from.open_pairs()?;
    Ok(MapHead {
        at: pairs.at,
        row: pairs.row,
        levels: head.levels,
        opened: head.opened,
    })
}
