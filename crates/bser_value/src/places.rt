//! A map that holds places where values will be, and values that take them.
//!
//! The map of a row is a copy of the map of places in which each place gives way to its field. So
//! no key of a row is searched or compared, and a slot for either is a `Value`: with a type of its
//! own for places the copy would be built entry by entry.
ghost use Rattle.std.specs.Prelude.{◌≡◌, pos, OnOk};
ghost use Rattle.bser_format.specs.Tree.{integer};
ghost use Rattle.bser_value.specs.Places.{PutsEntry, TakesPlace, TakesFields};

use crate::value::Value;
use std::alloc::{AllocError, Global};
use std::collections::BTreeMap;
use std::mem;

/// Puts the place at a copy of the key. The error is that there is no memory, also for a place that
/// no memory could hold the keys for.
pub fn put_place(
    alloc: Global,
    places: &mut BTreeMap<String, Value>,
    key: &str,
    place: usize,
) -> Result<(), AllocError>
    ensures { OnOk result (PutsEntry key.now (integer (pos place)) places.old places.new) }
{
    let Ok(value) = Value::from_usize(place) else {
        return Err(AllocError);
    };
    let name = String::from_str(alloc, key)?;
    match places.insert(name, value) {
        Ok(old) => {
            drop(old);
            Ok(())
        }
        Err(_) => Err(AllocError),
    }
}

/// Takes the value at the place that the slot holds out of the row and into the slot.
#[inline(always)]
fn take_field(slot: &mut Value, row: &mut Vec<Value>)
    ensures { TakesPlace slot.old row.old.items slot.new row.new.items }
{
    let Value::Integer(number) = slot else {
        return;
    };
    let Ok(place) = usize::try_from(*number) else {
        return;
    };
    if place < row.len() {
        let field = mem::replace(&mut row[place], Value::Null);
        // A place needs no drop.
        mem::forget(mem::replace(slot, field));
    }
}

/// Takes the value at each place that the map holds out of the row and into the map.
pub fn take_fields(entries: &mut BTreeMap<String, Value>, row: &mut Vec<Value>)
    ensures { TakesFields entries.old.entries row.old.items entries.new.entries }
{
    entries.retain(|_, slot| {
        take_field(slot, row);
        true
    });
}

/// Puts a value into a field, which most often is null.
#[inline(always)]
pub fn put_field(field: &mut Value, value: Value)
    ensures { field.new ≡ value }
{
    if matches!(field, Value::Null) {
        // Null needs no drop.
        mem::forget(mem::replace(field, value));
    } else {
        put_other(field, value);
    }
}

/// Puts a value into a field, in the place of one whose key comes again later.
#[cold]
#[inline(never)]
fn put_other(field: &mut Value, value: Value)
    ensures { field.new ≡ value }
{
    *field = value;
}
