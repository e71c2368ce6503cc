//! Copying a `Value`.
ghost use Rattle.std.specs.Prelude.{◌≡◌, IfOk};
ghost use Rattle.bser_value.specs.ValueView.{tree_of, items_view, entries_view};

use crate::value::Value;
use std::alloc::AllocError;
use std::collections::BTreeMap;
use std::default::Emptied;

/// Copies the value with all that it holds. It calls itself once for each level, so the stack has
/// to hold as many calls as the value is deep. The error is that there is no memory for the copy.
impl Clone for Value {
    ghost is_clone = { λ v w. tree_of w ≡ tree_of v };

    #[inline(always)]
    fn clone(&self) -> Result<Value, AllocError> {
        copy(self)
    }
}

#[cycle(copy)]
#[inline(always)]
fn copy(value: &Value) -> Result<Value, AllocError>
    ensures { IfOk result (λ v. tree_of v ≡ tree_of value.now) }
{
    match value {
        Value::Array(items) => Ok(Value::Array(copy_items(items)?)),
        Value::Object(entries) => Ok(Value::Object(copy_entries(entries)?)),
        Value::ByteString(bytes) => Ok(Value::ByteString(bytes.clone()?)),
        Value::Integer(number) => Ok(Value::Integer(*number)),
        Value::Real(bits) => Ok(Value::Real(*bits)),
        Value::Bool(truth) => Ok(Value::Bool(*truth)),
        Value::Null => Ok(Value::Null),
        Value::Utf8String(text) => Ok(Value::Utf8String(text.clone()?)),
    }
}

#[cycle(copy)]
#[inline(never)]
fn copy_items(items: &Vec<Value>) -> Result<Vec<Value>, AllocError>
    ensures { IfOk result (λ copies. items_view copies.items ≡ items_view items.now.items) }
{
    let mut copies = Vec::with_capacity(*items.allocator(), items.len())?;
    for item in items {
        copies.push(copy(item)?)?;
    }
    Ok(copies)
}

#[cycle(copy)]
#[inline(never)]
fn copy_entries(entries: &BTreeMap<String, Value>) -> Result<BTreeMap<String, Value>, AllocError>
    ensures { IfOk result (λ copies. entries_view copies.entries
        ≡ entries_view entries.now.entries) }
{
    let mut copies = BTreeMap::emptied(entries)?;
    for (key, member) in entries.iter() {
        let name = key.clone()?;
        drop(copies.insert(name, copy(member)?)?);
    }
    Ok(copies)
}
