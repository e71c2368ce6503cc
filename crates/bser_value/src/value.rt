//! Values of BSER of which the type is known only when they are read.
ghost use Rattle.std.specs.Prelude.{◌≡◌, ◌↔◌, ◌<◌, ◌^◌, pos, codes, string_bytes, IsOk, IfOk, IfErr, IsTrue};
ghost use Rattle.std.specs.Cmp.{on_per, on_equiv};
ghost use Rattle.bser_format.specs.Tree.{boolean, integer, text};
ghost use Rattle.bser_format.specs.Canonical.{IsWritable};
ghost use Rattle.bser_format.specs.SameTree.{same_tree, same_items, same_entries};
ghost use Rattle.bser_format.specs.ValueTree.{IsValueTree};
ghost use Rattle.bser_format.proofs.Same.{same_tree_equiv, same_tree_partial_equiv};
ghost use Rattle.bser_value.specs.ValueView.{tree_of, items_view, entries_view, items_tree, entries_tree};

mod access;
mod clone;
mod display;
mod writing;

use bser_format::bytestring::ByteString;
use std::alloc::{AllocError, Global};
use std::collections::BTreeMap;

/// Any BSER value. Reading gives a template as the array of its objects, and a missing field as
/// null.
#[derive(Debug, Drop)]
pub enum Value {
    Array(Vec<Value>),
    /// The entries in rising byte order of their keys.
    Object(BTreeMap<String, Value>),
    ByteString(ByteString),
    Integer(i64),
    /// The 64 bits of the number.
    Real(u64),
    Bool(bool),
    Null,
    Utf8String(String),
}

impl Value {
    /// Copies the text. The error is that there is no memory for it.
    pub fn from_text(alloc: Global, string: &str) -> Result<Self, AllocError>
        ensures { IfOk result (λ v. tree_of v ≡ text string.now) }
    {
        Ok(Self::Utf8String(String::from_str(alloc, string)?))
    }

    /// Returns the integer, or the error `value is too large to represent as i64` exactly where it
    /// is above `i64::MAX`.
    pub fn from_usize(number: usize) -> Result<Self, &'static str>
        ensures ok { IfOk result (λ v. tree_of v ≡ integer (pos number)) }
        ensures err { IfErr result (λ message. message.now
            ≡ codes "value is too large to represent as i64") }
        ensures fits { IsOk result ↔ (number < 2 ^ 63) }
    {
        match i64::try_from(number) {
            Ok(number) => Ok(Self::Integer(number)),
            Err(_) => Err("value is too large to represent as i64"),
        }
    }

    /// Copies the value with all that it holds, as `clone` does. It calls itself once for each
    /// level, so the stack has to hold as many calls as the value is deep. The error is that there
    /// is no memory for the copy.
    pub fn try_clone(&self, _alloc: Global) -> Result<Self, AllocError>
        ensures { IfOk result (λ copy. tree_of copy ≡ tree_of self.now) }
    {
        self.clone()
    }

    /// Visits all that the value holds and answers nothing: its contract gives a proof what every
    /// value's tree is. It calls itself once for each level, as `try_clone` does.
    #[cycle(check)]
    pub fn check_tree(&self)
        ensures value { IsValueTree (tree_of self.now) }
        ensures writable { IsWritable (tree_of self.now) }
    {
        match self {
            Self::Array(items) => check_items(items),
            Self::Object(entries) => check_entries(entries),
            Self::ByteString(bytes) => {
                let _bytes = bytes.as_bytes();
            }
            Self::Integer(number) => {
                let _number = *number;
            }
            Self::Real(bits) => {
                let _bits = *bits;
            }
            Self::Bool(_) | Self::Null => {}
            Self::Utf8String(string) => {
                let _string = string.as_str();
            }
        }
    }
}

impl From<Vec<Value>> for Value {
    ghost from_gives = { λ items value. tree_of value ≡ items_tree items.items };

    fn from(items: Vec<Value>) -> Self {
        Self::Array(items)
    }
}

impl From<BTreeMap<String, Value>> for Value {
    ghost from_gives = { λ entries value. tree_of value ≡ entries_tree entries.entries };

    fn from(entries: BTreeMap<String, Value>) -> Self {
        Self::Object(entries)
    }
}

impl From<bool> for Value {
    ghost from_gives = { λ truth value. tree_of value ≡ boolean truth };

    fn from(truth: bool) -> Self {
        Self::Bool(truth)
    }
}

impl From<String> for Value {
    ghost from_gives = { λ string value. tree_of value ≡ text (string_bytes string) };

    fn from(string: String) -> Self {
        Self::Utf8String(string)
    }
}

impl From<i64> for Value {
    ghost from_gives = { λ number value. tree_of value ≡ integer number };

    fn from(number: i64) -> Self {
        Self::Integer(number)
    }
}

/// Values are equal where they have one tree: the same variant, and the same parts in the same
/// order. Comparing calls itself once for each level.
impl PartialEq for Value {
    ghost eq = { λ value other. same_tree (tree_of value) (tree_of other) };

    ghost laws = { on_per tree_of same_tree_partial_equiv };

    fn eq(&self, other: &Self) -> bool
        ensures same { result ≡ same_tree (tree_of self.now) (tree_of other.now) }
        ensures content { IsTrue result ↔ (tree_of self.now ≡ tree_of other.now) }
    {
        is_same(self, other)
    }
}

impl Eq for Value {
    ghost laws = { on_equiv tree_of same_tree_equiv };
}

#[cycle(same)]
fn is_same(value: &Value, other: &Value) -> bool
    ensures { result ≡ same_tree (tree_of value.now) (tree_of other.now) }
{
    match (value, other) {
        (Value::Array(items), Value::Array(others)) => are_same_items(items, others),
        (Value::Object(entries), Value::Object(others)) => are_same_entries(entries, others),
        (Value::ByteString(bytes), Value::ByteString(others)) => bytes == others,
        (Value::Integer(number), Value::Integer(other)) => number == other,
        (Value::Real(bits), Value::Real(other)) => bits == other,
        (Value::Bool(truth), Value::Bool(other)) => truth == other,
        (Value::Null, Value::Null) => true,
        (Value::Utf8String(string), Value::Utf8String(other)) => string == other,
        _ => false,
    }
}

#[cycle(same)]
fn are_same_items(items: &Vec<Value>, others: &Vec<Value>) -> bool
    ensures { result ≡ same_items (items_view items.now.items) (items_view others.now.items) }
{
    let mut rest = others.iter();
    for item in items {
        match rest.next() {
            Some(other) if is_same(item, other) => {}
            _ => return false,
        }
    }
    rest.next().is_none()
}

#[cycle(same)]
fn are_same_entries(entries: &BTreeMap<String, Value>, others: &BTreeMap<String, Value>) -> bool
    ensures { result ≡ same_entries (entries_view entries.now.entries)
        (entries_view others.now.entries) }
{
    let mut rest = others.iter();
    for (key, member) in entries.iter() {
        match rest.next() {
            Some((other_key, other)) if key == other_key && is_same(member, other) => {}
            _ => return false,
        }
    }
    rest.next().is_none()
}

#[cycle(check)]
fn check_items(items: &Vec<Value>)
    ensures value { IsValueTree (items_tree items.now.items) }
    ensures writable { IsWritable (items_tree items.now.items) }
{
    for item in items {
        item.check_tree();
    }
}

#[cycle(check)]
fn check_entries(entries: &BTreeMap<String, Value>)
    ensures value { IsValueTree (entries_tree entries.now.entries) }
    ensures writable { IsWritable (entries_tree entries.now.entries) }
{
    for (key, member) in entries.iter() {
        let _key = key.as_str();
        member.check_tree();
    }
}
