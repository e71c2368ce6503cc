//! The list of an enum's variants, and reading and writing an enum by it.
ghost use Rattle.std.specs.Prelude.{◌≡◌, List, length, IfOk, OnErr};
ghost use Rattle.bser_structs.specs.Payloads.{ReadsEnum, RefusesEnum};
ghost use Rattle.bser_structs.specs.Variants.{VariantOf};

use crate::payloads::ReadPayloads;
use crate::variant::open_variant;
use bser_bunser::refusal::Answer;
use bser_deserializer::deserializer::Deserializer;
use bser_source::read::DeRead;
use bser_source::reference::LendsText;
use std::alloc::Global;

/// An enum, by the list of its variants.
pub trait Variants {
    // each variant: its name, the part of the enum that it is, and the coding of its payload
    ghost variants: { List (VariantOf Self) };
}

/// Reads the variant that is expected, of an enum of this name: one of these names, and its
/// payload.
///
/// The errors are those of [`read_enum`](crate::enum_access::ReadsEnums::read_enum), those
/// of the payload's type, and [`Complaint::WrongType`](bser_format::errors::Complaint::WrongType)
/// for a name without its payload. After an error each later call fails.
#[inline(always)]
pub fn read_variants<R: DeRead, P: ReadPayloads<R::Lent>>(
    alloc: Global,
    from: &mut Deserializer<R>,
    name: &str,
    names: &[&str],
    payloads: &P,
) -> Answer<P::Value>
where
    R::Lent: LendsText,
    requires { length names.now ≡ length (P.payloads payloads.now) }
    ensures found { IfOk result (ReadsEnum names.now (P.payloads payloads.now) P.holds
        from.old from.new) }
    ensures refused { OnErr result (RefusesEnum name.now names.now (P.payloads payloads.now)
        (P.asks payloads.now) P.needs from.old from.new) }
{
    let (place, head) = open_variant(from, name, names)?;
    payloads.read_at(alloc, place, from, head)
}

/// The payload of a variant.
#[macro_export]
macro_rules! variant_payload {
    () => { $crate::Unit };
    (($($part:ident),+)) => { $crate::Newtype($crate::PhantomData) };
    ({ $($slot:ident($name:literal)),* }) => {
        $crate::Struct::<$crate::field_slots!($($slot)*)>(&[$($name),*], $crate::PhantomData)
    };
}

/// The payloads of variants, as pairs of one and the others, up to `()`.
#[macro_export]
macro_rules! variant_payloads {
    () => { () };
    ([$($payload:tt)?] $($others:tt)*) => {
        ($crate::variant_payload!($($payload)?), $crate::variant_payloads!($($others)*))
    };
}

/// The value of the variant that was read.
#[macro_export]
macro_rules! variant_read {
    ($read:ident,) => { match $read {} };
    ($read:ident, [$of:ident $variant:ident] $($others:tt)*) => {
        match $read {
            $crate::OneOf::First(()) => Ok($of::$variant),
            $crate::OneOf::Others(others) => $crate::variant_read!(others, $($others)*),
        }
    };
    ($read:ident, [$of:ident $variant:ident ($part:ident)] $($others:tt)*) => {
        match $read {
            $crate::OneOf::First($part) => Ok($of::$variant($part)),
            $crate::OneOf::Others(others) => $crate::variant_read!(others, $($others)*),
        }
    };
    ($read:ident, [$of:ident $variant:ident ($($part:ident),+)] $($others:tt)*) => {
        match $read {
            $crate::OneOf::First(($($part),+)) => Ok($of::$variant($($part),+)),
            $crate::OneOf::Others(others) => $crate::variant_read!(others, $($others)*),
        }
    };
    ($read:ident, [$of:ident $variant:ident { $($field:ident),* }] $($others:tt)*) => {
        match $read {
            $crate::OneOf::First($crate::field_values!($($field)*)) => {
                Ok($of::$variant { $($field),* })
            }
            $crate::OneOf::Others(others) => $crate::variant_read!(others, $($others)*),
        }
    };
}

/// Reads the variant that is expected as an enum, by [`read_variants`](crate::read_variants), and
/// fails as it does.
///
/// Each variant is written with its name, and each field of a variant as in
/// [`read_struct`](crate::read_struct).
#[macro_export]
macro_rules! read_enum {
    ($alloc:expr, $from:expr, $of:ident {
        $($variant:ident
            $(($($part:ident),+))?
            $({ $($field:ident: $slot:ident($key:literal)),* $(,)? })?
            : $name:literal),* $(,)?
    }) => {{
        let read = $crate::read_variants(
            $alloc,
            $from,
            stringify!($of),
            &[$($name),*],
            &$crate::variant_payloads!($([$(($($part),+))? $({ $($slot($key)),* })?])*),
        )?;
        $crate::variant_read!(
            read,
            $([$of $variant $(($($part),+))? $({ $($field),* })?])*
        )
    }};
}

/// The fields of a variant, as pairs of one and the others, up to `()`.
#[macro_export]
macro_rules! parts_given {
    () => { () };
    ($field:ident: $slot:ident($name:literal) $(, $($others:tt)*)?) => {
        (
            ($name, $crate::field_given!($slot $field)),
            $crate::parts_given!($($($others)*)?),
        )
    };
}

/// Puts a variant of this name.
#[macro_export]
macro_rules! variant_put {
    ($alloc:expr, $out:expr, $name:literal,) => { $out.put_text($name) };
    ($alloc:expr, $out:expr, $name:literal, ($part:ident)) => {
        $crate::put_variant($alloc, $out, $name, $part)
    };
    ($alloc:expr, $out:expr, $name:literal, ($($part:ident),+)) => {
        $crate::put_variant($alloc, $out, $name, &($($part),+))
    };
    ($alloc:expr, $out:expr, $name:literal, { $($fields:tt)* }) => {
        $crate::put_variant_fields($alloc, $out, $name, &$crate::parts_given!($($fields)*))
    };
}

/// Puts an enum, the variant that it is, by [`put_text`](bser_ser::Serializer::put_text),
/// [`put_variant`](crate::put_variant) or [`put_variant_fields`](crate::put_variant_fields), and
/// fails as they do.
///
/// Each variant is written with its name, and each field of a variant as in
/// [`put_struct`](crate::put_struct).
#[macro_export]
macro_rules! put_enum {
    ($alloc:expr, $out:expr, $value:expr, $of:ident {
        $($variant:ident
            $(($($part:ident),+))?
            $({ $($field:ident: $slot:ident($key:literal)),* $(,)? })?
            : $name:literal),* $(,)?
    }) => {
        match $value {
            $($of::$variant $(($($part),+))? $({ $($field),* })? => {
                $crate::variant_put!(
                    $alloc,
                    $out,
                    $name,
                    $(($($part),+))? $({ $($field: $slot($key)),* })?
                )
            })*
        }
    };
}
