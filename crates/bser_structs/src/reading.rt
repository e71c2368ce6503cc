//! Reading a struct by its fields.

/// The types of fields, as pairs of one and the others, up to `()`.
#[macro_export]
macro_rules! field_slots {
    () => { () };
    (Required $($others:ident)*) => {
        ($crate::Required<_>, $crate::field_slots!($($others)*))
    };
    (Optional $($others:ident)*) => {
        ($crate::Optional<_>, $crate::field_slots!($($others)*))
    };
    (Nullable $($others:ident)*) => {
        ($crate::Optional<_>, $crate::field_slots!($($others)*))
    };
}

/// Variables, as pairs of one and the others, up to `()`.
#[macro_export]
macro_rules! field_values {
    () => { () };
    ($first:ident $($others:ident)*) => { ($first, $crate::field_values!($($others)*)) };
}

/// Reads the object or the row that is expected as a struct, by
/// [`read_fields`](crate::struct_reader::ReadsFields::read_fields), and fails as it does.
///
/// Each field is written with its name. A `Required` one has to be there; an `Optional` and a
/// `Nullable` one is `None` where it is null or absent. Other names are passed over.
#[macro_export]
macro_rules! read_struct {
    ($alloc:expr, $from:expr, $of:ident {
        $($field:ident: $slot:ident($name:literal)),* $(,)?
    }) => {{
        let $crate::field_values!($($field)*) =
            $from.read_fields::<$crate::field_slots!($($slot)*)>($alloc, &[$($name),*])?;
        Ok($of { $($field),* })
    }};
}
