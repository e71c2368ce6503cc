//! A variant where an enum is expected.
ghost use Rattle.std.specs.Prelude.{◌≡◌, IfOk, OnErr};
ghost use Rattle.bser_format.specs.Expected.{row_due};
ghost use Rattle.bser_deserializer.specs.Dues.{IsValueDue};
ghost use Rattle.bser_deserializer.specs.State.{refused};
ghost use Rattle.bser_deserializer.specs.View.{IsBefore};
ghost use Rattle.bser_structs.specs.VariantCalls.{Enters, HasFailed, IsOtherKind, IsTooDeep, MissesRow, NamesObject, NamesValue, Opens, RefusesEnum};

use crate::variant_name::{read_only_key, read_place};
use bser_bunser::refusal::{Answer, Refused};
use bser_deserializer::container::{Containers, MapHead};
use bser_deserializer::cursor::Cursor;
use bser_deserializer::deserializer::{Deserializer, Due};
use bser_format::errors::{EnumName, Error, Kind};
use bser_format::header::{BSER_BYTESTRING, BSER_OBJECT, BSER_UTF8STRING};
use bser_source::read::DeRead;
use bser_source::reference::LendsText;

/// Reads the name of the variant that is expected: its first place in `variants`, and the head of
/// its object or row, unless the name is alone.
pub fn open_variant<R: DeRead>(
    from: &mut Deserializer<R>,
    name: &str,
    variants: &[&str],
) -> Answer<(usize, Option<MapHead>)>
where
    R::Lent: LendsText,
    ensures found { IfOk result (Opens variants.now from.old from.new) }
    ensures refused { OnErr result (RefusesEnum name.now variants.now from.old from.new) }
{
    match from.due() {
        Due::Node | Due::Field => open_value(from, name, variants),
        Due::Row => {
            let (place, head) = open_row(from, variants)?;
            Ok((place, Some(head)))
        }
        _ => Ok((read_place(from, variants)?, None)),
    }
}

/// Reads the variant that a value or a field is.
fn open_value<R: DeRead>(
    from: &mut Deserializer<R>,
    name: &str,
    variants: &[&str],
) -> Answer<(usize, Option<MapHead>)>
where
    R::Lent: LendsText,
    requires { IsValueDue from.old.state.due }
    ensures found { IfOk result (Opens variants.now from.old from.new) }
    ensures err { OnErr result (HasFailed from.old from.new) }
    ensures names { OnErr result (NamesValue name.now variants.now from.old from.new) }
{
    match from.value_tag()? {
        BSER_BYTESTRING | BSER_UTF8STRING => Ok((read_place(from, variants)?, None)),
        BSER_OBJECT => {
            let (place, head) = open_object(from, name, variants)?;
            Ok((place, Some(head)))
        }
        byte => Err(refuse_kind(from, name, byte)),
    }
}

/// Fails for a byte that begins no enum of this name.
#[cold]
#[inline(never)]
fn refuse_kind<R: DeRead>(from: &mut Deserializer<R>, name: &str, byte: u8) -> Refused
    ensures reason { IsOtherKind name.now byte from.new.refusal }
    ensures state { from.new.state ≡ refused from.old.state }
{
    from.refuse(Error::DeInvalidStartByte {
        kind: Kind::Enum(EnumName::new(name)),
        byte,
    })
}

/// Fails for an enum of this name that nests too deep.
#[cold]
#[inline(never)]
fn refuse_depth<R: DeRead>(from: &mut Deserializer<R>, name: &str) -> Refused
    ensures reason { IsTooDeep name.now from.new.refusal }
    ensures state { from.new.state ≡ refused from.old.state }
{
    from.refuse(Error::DeRecursionLimitExceeded {
        kind: Kind::ObjectLikeEnum(EnumName::new(name)),
    })
}

/// Reads the name in the object whose tag is next, of which it is the only key.
fn open_object<R: DeRead>(
    from: &mut Deserializer<R>,
    name: &str,
    variants: &[&str],
) -> Answer<(usize, MapHead)>
where
    R::Lent: LendsText,
    requires { IsBefore 0x01 from.old.state }
    ensures found { IfOk result (Enters variants.now from.old from.new) }
    ensures err { OnErr result (HasFailed from.old from.new) }
    ensures names { OnErr result (NamesObject name.now variants.now from.old from.new) }
{
    if from.levels() == 0 {
        return Err(refuse_depth(from, name));
    }
    let head = from.open_pairs()?;
    let place = read_only_key(from, head, variants)?;
    Ok((place, head))
}

/// Reads the name in the row that is expected, of which it is the only key.
fn open_row<R: DeRead>(from: &mut Deserializer<R>, variants: &[&str]) -> Answer<(usize, MapHead)>
where
    R::Lent: LendsText,
    requires { from.old.state.due ≡ row_due from.old.state.keys }
    ensures found { IfOk result (Enters variants.now from.old from.new) }
    ensures err { OnErr result (HasFailed from.old from.new) }
    ensures names { OnErr result (MissesRow variants.now from.old from.new) }
{
    let head = from.open_pairs()?;
    let place = read_only_key(from, head, variants)?;
    Ok((place, head))
}
