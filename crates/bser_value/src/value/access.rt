//! Looking into a `Value`, by the names that `serde_json` has.
ghost use Rattle.std.specs.Prelude.{◌≡◌, ◌↔◌, option_map, IsTrue};
ghost use Rattle.bser_format.specs.Tree.{null};
ghost use Rattle.bser_value.specs.Contents.{get, as_str, as_bytes, as_i64, as_f64, as_bool, as_array, as_object};
ghost use Rattle.bser_value.specs.ValueView.{tree_of, items_view, entries_view};

use crate::value::Value;
use bser_format::real::float_of;
use std::collections::BTreeMap;
use std::num::nearest_i64_to_f64;

impl Value {
    /// Returns the value at this key of an object. `None` where the object has no such key, and for
    /// every value that is no object.
    pub fn get(&self, key: &str) -> Option<&Value>
        ensures { option_map (λ member. tree_of member.now) result
            ≡ get key.now (tree_of self.now) }
    {
        match self {
            Self::Object(entries) => entries.get(key),
            _ => None,
        }
    }

    /// Returns the text of a `Utf8String`, and `None` for all else, a byte string that is UTF-8
    /// included.
    pub fn as_str(&self) -> Option<&str>
        ensures { option_map (λ text. text.now) result ≡ as_str (tree_of self.now) }
    {
        match self {
            Self::Utf8String(text) => Some(text.as_str()),
            _ => None,
        }
    }

    /// Returns the bytes of a byte string or of a `Utf8String`, as a server sends one name as
    /// either, and `None` for all else.
    pub fn as_bytes(&self) -> Option<&[u8]>
        ensures { option_map (λ bytes. bytes.now) result ≡ as_bytes (tree_of self.now) }
    {
        match self {
            Self::ByteString(bytes) => Some(bytes.as_bytes()),
            Self::Utf8String(text) => Some(text.as_bytes()),
            _ => None,
        }
    }

    /// Returns the integer, and `None` for all else, reals included.
    pub fn as_i64(&self) -> Option<i64>
        ensures { result ≡ as_i64 (tree_of self.now) }
    {
        match self {
            Self::Integer(number) => Some(*number),
            _ => None,
        }
    }

    /// Returns the real, or the `f64` nearest to the integer. `None` for a NaN, of which
    /// `f64::from_bits` makes no float, and for all that is no number.
    pub fn as_f64(&self) -> Option<f64>
        ensures { result ≡ as_f64 (tree_of self.now) }
    {
        match self {
            Self::Real(bits) => float_of(*bits),
            Self::Integer(number) => Some(nearest_i64_to_f64(*number)),
            _ => None,
        }
    }

    /// Returns the truth value, and `None` for all else.
    pub fn as_bool(&self) -> Option<bool>
        ensures { result ≡ as_bool (tree_of self.now) }
    {
        match self {
            Self::Bool(truth) => Some(*truth),
            _ => None,
        }
    }

    /// Returns the items of an array, and `None` for all else.
    pub fn as_array(&self) -> Option<&Vec<Value>>
        ensures { option_map (λ items. items_view items.now.items) result
            ≡ as_array (tree_of self.now) }
    {
        match self {
            Self::Array(items) => Some(items),
            _ => None,
        }
    }

    /// Returns the entries of an object, and `None` for all else.
    pub fn as_object(&self) -> Option<&BTreeMap<String, Value>>
        ensures { option_map (λ entries. entries_view entries.now.entries) result
            ≡ as_object (tree_of self.now) }
    {
        match self {
            Self::Object(entries) => Some(entries),
            _ => None,
        }
    }

    /// Returns whether the value is null.
    pub fn is_null(&self) -> bool
        ensures { IsTrue result ↔ (tree_of self.now ≡ null) }
    {
        matches!(self, Self::Null)
    }
}
