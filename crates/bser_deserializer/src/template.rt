//! A template's keys.
ghost use Rattle.std.specs.Prelude.{◌≡◌, IfOk, OnOk, OnErr};
ghost use Rattle.bser_format.specs.declared.errors.Kind.TheVariants.{TemplateKey};
ghost use Rattle.bser_format.specs.Named.{text_of};
ghost use Rattle.bser_bunser.specs.Calls.{HasFailed};
ghost use Rattle.bser_deserializer.specs.Kept.{TakesKey, TakesKeys, TakesKeysAndRows};
ghost use Rattle.bser_deserializer.specs.Templates.{NamesPart, keys_after_number, keys_and_rows};

use bser_bunser::bunser::Bunser;
use bser_bunser::prefix::is_key_tag;
use bser_bunser::refusal::Answer;
use bser_format::errors::{Complaint, Error, Kind};
use bser_source::read::DeRead;
use bser_source::reference::Lending;
use std::alloc::Global;

/// Takes a template's key, and keeps it.
fn take_key<R: DeRead>(
    alloc: Global,
    bunser: &mut Bunser<R>,
    scratch: &mut Vec<u8>,
) -> Answer<<R::Lent as Lending>::Kept>
    ensures ok { IfOk result (TakesKey R.Lent.Lending bunser.old bunser.new) }
    ensures kept { OnOk result (bunser.new.refusal ≡ bunser.old.refusal) }
    ensures err { OnErr result (HasFailed bunser.old bunser.new) }
    ensures names { OnErr result (NamesPart (text_of TemplateKey) bunser.old bunser.new) }
{
    bunser.fill(1)?;
    let byte = bunser.buffered()[0];
    if !is_key_tag(byte) {
        return Err(bunser.refuse(Error::DeInvalidStartByte {
            kind: Kind::TemplateKey,
            byte,
        }));
    }
    bunser.consume(1);
    let bytes = bunser.next_string(scratch)?;
    match <R::Lent as Lending>::keep(alloc, bytes) {
        Ok(key) => Ok(key),
        Err(reason) => Err(bunser.refuse(reason)),
    }
}

/// Takes a template's keys, after their number.
fn take_keys<R: DeRead>(
    alloc: Global,
    bunser: &mut Bunser<R>,
) -> Answer<Vec<<R::Lent as Lending>::Kept>>
    ensures ok { IfOk result (TakesKeys R.Lent.Lending bunser.old bunser.new) }
    ensures kept { OnOk result (bunser.new.refusal ≡ bunser.old.refusal) }
    ensures err { OnErr result (HasFailed bunser.old bunser.new) }
    ensures names { OnErr result (NamesPart keys_after_number bunser.old bunser.new) }
{
    let mut keys = Vec::new(alloc);
    let mut scratch = Vec::new(alloc);
    let count = bunser.count()?;
    for _key in 0..count {
        let key = take_key(alloc, bunser, &mut scratch)?;
        if keys.push(key).is_err() {
            return Err(bunser.refuse(Error::OutOfMemory));
        }
    }
    Ok(keys)
}

/// Takes a template's keys, and the number of its rows.
pub(crate) fn take_keys_and_rows<R: DeRead>(
    alloc: Global,
    bunser: &mut Bunser<R>,
) -> Answer<(Vec<<R::Lent as Lending>::Kept>, usize)>
    ensures ok { IfOk result (TakesKeysAndRows R.Lent.Lending bunser.old bunser.new) }
    ensures kept { OnOk result (bunser.new.refusal ≡ bunser.old.refusal) }
    ensures err { OnErr result (HasFailed bunser.old bunser.new) }
    ensures names { OnErr result (NamesPart keys_and_rows bunser.old bunser.new) }
{
    let keys = take_keys(alloc, bunser)?;
    let rows = bunser.count()?;
    if keys.is_empty() && rows != 0 {
        return Err(bunser.refuse(Error::de_custom(Complaint::RowsWithoutKeys)));
    }
    Ok((keys, rows))
}
