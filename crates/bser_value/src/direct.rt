//! Reading a value that is there whole, without reporting its parts.
//!
//! No function calls itself: each level is an instance of its own, and what is deeper is not read.
ghost use Rattle.std.specs.Prelude.{◌≡◌, ◌<◌, ◌∷◌, ◌++◌, [], ℕ, IfSome, OnOk};
ghost use Rattle.bser_bunser.specs.declared.prefix.Token.TheVariants as tokens;
ghost use Rattle.bser_value.specs.Direct.{ReadsValue, ReadsRest, ReadsArray, ReadsObject, ReadsTable, ReadsRowsOf, ReadsRowOf, ReadsField};

use crate::building::put_entry;
use crate::value::Value;
use bser_bunser::prefix::{Prefix, Token, token_prefix};
use bser_events::fronts::{CountFront, Taken, count, key, keys, text};
use bser_format::bytestring::ByteString;
use bser_format::header::{BSER_ARRAY, BSER_SKIP};
use std::alloc::{AllocError, Global};
use std::collections::BTreeMap;
use std::marker::PhantomData;

/// A value, and what follows it.
#[derive(Drop)]
pub(crate) struct Read<'b> {
    pub(crate) value: Value,
    pub(crate) rest: &'b [u8],
}

/// Reads the containers of a level.
pub(crate) trait Inner {
    /// The container behind its token, and what follows it. None says nothing of the bytes.
    fn container(alloc: Global, token: Token, bytes: &[u8], levels: usize) -> Option<Read<'_>>
        ensures { IfSome result (λ r. (0 < levels)
            × ReadsRest levels token bytes.now r.value r.rest.now) };
}

/// Reads no container.
pub(crate) struct Innermost;

impl Inner for Innermost {
    #[inline(always)]
    fn container(_alloc: Global, _token: Token, _bytes: &[u8], _levels: usize) -> Option<Read<'_>> {
        None
    }
}

/// Reads containers whose parts `I` reads.
pub(crate) struct ContainersOf<I: Inner> {
    inner: PhantomData<I>,
}

impl<I: Inner> Inner for ContainersOf<I> {
    #[inline(never)]
    fn container(alloc: Global, token: Token, bytes: &[u8], levels: usize) -> Option<Read<'_>> {
        if levels == 0 {
            return None;
        }
        match token {
            Token::Array { len } => items::<I>(alloc, bytes, len, levels - 1),
            Token::Object { len } => entries::<I>(alloc, bytes, len, levels - 1),
            Token::Template => template::<I>(alloc, bytes, levels - 1),
            _ => None,
        }
    }
}

/// Reads the containers of four levels.
pub(crate) type FourLevels = ContainersOf<ContainersOf<ContainersOf<ContainersOf<Innermost>>>>;

/// The value that these bytes begin with, whose container `I` reads, and what follows it. None says
/// nothing of the bytes.
#[inline(always)]
pub(crate) fn value<I: Inner>(alloc: Global, bytes: &[u8], levels: usize) -> Option<Read<'_>>
    ensures { IfSome result (λ r. ReadsValue levels bytes.now r.value r.rest.now) }
{
    match token_prefix(bytes) {
        Prefix::Found { value: token, len } => match token {
            Token::Null => Some(Read {
                value: Value::Null,
                rest: &bytes[len..],
            }),
            Token::Bool(truth) => Some(Read {
                value: Value::Bool(truth),
                rest: &bytes[len..],
            }),
            Token::Int(number) => Some(Read {
                value: Value::Integer(number),
                rest: &bytes[len..],
            }),
            Token::Real(bits) => Some(Read {
                value: Value::Real(bits),
                rest: &bytes[len..],
            }),
            Token::Str { is_text, len: size } => string(alloc, &bytes[len..], is_text, size),
            Token::Skip => None,
            _ => I::container(alloc, token, &bytes[len..], levels),
        },
        _ => None,
    }
}

/// A string of so many bytes, and what follows it.
#[inline(always)]
fn string(alloc: Global, bytes: &[u8], is_text: bool, len: usize) -> Option<Read<'_>>
    ensures { IfSome result (λ r. (levels : ℕ)
        → ReadsRest levels (tokens.Str is_text len) bytes.now r.value r.rest.now) }
{
    if is_text {
        let Taken { text: found, rest } = text(bytes, len)?;
        return match String::from_str(alloc, found) {
            Ok(copy) => Some(Read {
                value: Value::Utf8String(copy),
                rest,
            }),
            Err(_) => None,
        };
    }
    if bytes.len() < len {
        return None;
    }
    match Vec::from_slice(alloc, &bytes[..len]) {
        Ok(copy) => Some(Read {
            value: Value::ByteString(ByteString::from_vec(copy)),
            rest: &bytes[len..],
        }),
        Err(_) => None,
    }
}

/// So many items, and what follows them.
fn items<I: Inner>(alloc: Global, bytes: &[u8], count: usize, levels: usize) -> Option<Read<'_>>
    ensures { IfSome result (λ r. ReadsArray levels count bytes.now r.value r.rest.now) }
{
    if count > bytes.len() {
        return None;
    }
    let mut items = Vec::new(alloc);
    let mut rest = bytes;
    for _ in 0..count {
        let Read {
            value: item,
            rest: after,
        } = value::<I>(alloc, rest, levels)?;
        if put_item(&mut items, item).is_err() {
            return None;
        }
        rest = after;
    }
    Some(Read {
        value: Value::Array(items),
        rest,
    })
}

/// So many entries, and what follows them.
fn entries<I: Inner>(alloc: Global, bytes: &[u8], count: usize, levels: usize) -> Option<Read<'_>>
    ensures { IfSome result (λ r. ReadsObject levels count bytes.now r.value r.rest.now) }
{
    let mut entries = BTreeMap::new(alloc);
    let mut rest = bytes;
    for _ in 0..count {
        let Taken {
            text: name,
            rest: behind,
        } = key(rest)?;
        let name = match String::from_str(alloc, name) {
            Ok(name) => name,
            Err(_) => return None,
        };
        let Read {
            value: member,
            rest: after,
        } = value::<I>(alloc, behind, levels)?;
        if put_entry(&mut entries, name, member).is_err() {
            return None;
        }
        rest = after;
    }
    Some(Read {
        value: Value::Object(entries),
        rest,
    })
}

/// The rows of a template behind its token, and what follows them.
fn template<I: Inner>(alloc: Global, bytes: &[u8], levels: usize) -> Option<Read<'_>>
    ensures { IfSome result (λ r. ReadsTable levels bytes.now r.value r.rest.now) }
{
    if levels == 0 || bytes.is_empty() || bytes[0] != BSER_ARRAY {
        return None;
    }
    let CountFront {
        count: width,
        rest: names,
    } = count(&bytes[1..])?;
    let after = keys(names, width)?;
    let CountFront {
        count: height,
        rest,
    } = count(after)?;
    if width == 0 && height != 0 {
        return None;
    }
    rows::<I>(alloc, names, rest, width, height, levels)
}

/// So many rows with keys that begin the names, and what follows them.
fn rows<'b, I: Inner>(
    alloc: Global,
    names: &[u8],
    bytes: &'b [u8],
    width: usize,
    height: usize,
    levels: usize,
) -> Option<Read<'b>>
    ensures { IfSome result (λ r.
        ReadsRowsOf levels names.now width height bytes.now r.value r.rest.now) }
{
    if height > bytes.len() {
        return None;
    }
    let mut objects = Vec::new(alloc);
    let mut rest = bytes;
    for _ in 0..height {
        let Read {
            value: object,
            rest: after,
        } = row::<I>(alloc, names, rest, width, levels)?;
        if put_item(&mut objects, object).is_err() {
            return None;
        }
        rest = after;
    }
    Some(Read {
        value: Value::Array(objects),
        rest,
    })
}

/// A row with keys that begin the names, and what follows it.
fn row<'b, I: Inner>(
    alloc: Global,
    names: &[u8],
    bytes: &'b [u8],
    width: usize,
    levels: usize,
) -> Option<Read<'b>>
    ensures { IfSome result (λ r. ReadsRowOf levels names.now width bytes.now r.value r.rest.now) }
{
    let mut entries = BTreeMap::new(alloc);
    let mut left = names;
    let mut rest = bytes;
    for _ in 0..width {
        let Taken {
            text: name,
            rest: others,
        } = key(left)?;
        let name = match String::from_str(alloc, name) {
            Ok(name) => name,
            Err(_) => return None,
        };
        let Read {
            value: member,
            rest: after,
        } = field::<I>(alloc, rest, levels)?;
        if put_entry(&mut entries, name, member).is_err() {
            return None;
        }
        left = others;
        rest = after;
    }
    Some(Read {
        value: Value::Object(entries),
        rest,
    })
}

/// A field of a row, null where it is skipped, and what follows it.
#[inline(always)]
fn field<I: Inner>(alloc: Global, bytes: &[u8], levels: usize) -> Option<Read<'_>>
    ensures { IfSome result (λ r. ReadsField levels bytes.now r.value r.rest.now) }
{
    if !bytes.is_empty() && bytes[0] == BSER_SKIP {
        return Some(Read {
            value: Value::Null,
            rest: &bytes[1..],
        });
    }
    value::<I>(alloc, bytes, levels)
}

/// Puts an item behind the others.
#[inline(always)]
fn put_item(items: &mut Vec<Value>, item: Value) -> Result<(), AllocError>
    ensures { OnOk result (items.new.items ≡ items.old.items ++ item ∷ []) }
{
    items.push(item)?;
    Ok(())
}
