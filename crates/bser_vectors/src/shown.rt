//! The notation of the types that are read.
//!
//! `i` and decimal digits is an integer, `t` and `f` are the truth values, `u` is `()`, `_` what is
//! ignored, `x` and hexadecimal digits the bytes of a string or of a character in UTF-8; `-` is no
//! value and `+` comes before one; `[..]` is a list, `(..)` a tuple, `{key=value}` a map in its
//! order, `<field=value>` a struct, and `Variant` or `Variant:payload` an enum. A `Value` and a
//! `Document` have the notation of [`crate::notation`].
mod enums;
mod holders;
mod lists;
mod scalars;
mod strings;
mod structs;
mod values;

use crate::notation::writer::NotationWriter;

/// A type whose values have a notation.
pub trait Shown {
    /// Puts the notation of the value behind the text.
    fn put(&self, text: &mut NotationWriter);
}
