//! Parameters of the statements that write an index.
ghost use Rattle.std.specs.Prelude.{◌≡◌, ◌-◌, ◌^◌, pos, min};
ghost use Rattle.std.specs.Option.{option_map};
ghost use Rattle.sqlite.specs.Value.{owned};
ghost use Rattle.sqlite.specs.Values.{bound_value, or_null};
ghost use Rattle.sqlite.specs.declared.types.Value.TheVariants.{Blob, Int, Text};
ghost use Rattle.watchman_types.specs.Words.{file_type_word};
ghost use Rattle.watchman_sqlite.specs.Columns.{number};
ghost use Rattle.watchman_sqlite.specs.Entries.{stored, truth};

use serde_bser::bytestring::ByteString;
use sqlite::types::ValueRef;
use watchman_types::file_type::FileType;

/// A number as a parameter.
pub(crate) fn param(number: u64) -> i64
    ensures { result ≡ pos (min number (2 ^ 63 - 1)) }
{
    i64::try_from(number).unwrap_or(i64::MAX)
}

/// The number of a message, as a parameter.
pub(crate) fn number_param<'v>(number: u64) -> ValueRef<'v>
    ensures { bound_value (owned result) ≡ stored number }
{
    ValueRef::Int(param(number))
}

/// A size that may be unknown, as a parameter.
pub(crate) fn size_param<'v>(size: Option<u64>) -> ValueRef<'v>
    ensures { bound_value (owned result) ≡ or_null stored size }
{
    match size {
        Some(size) => ValueRef::Int(param(size)),
        None => ValueRef::Null,
    }
}

/// A mode that may be unknown, as a parameter.
pub(crate) fn mode_param<'v>(mode: Option<u32>) -> ValueRef<'v>
    ensures { bound_value (owned result) ≡ or_null number mode }
{
    match mode {
        Some(mode) => ValueRef::Int(i64::from(mode)),
        None => ValueRef::Null,
    }
}

/// A type that may be unknown, as a parameter.
pub(crate) fn type_param<'v>(kind: Option<FileType>) -> ValueRef<'v>
    ensures { bound_value (owned result)
        ≡ or_null (λ kind. Text (file_type_word kind)) kind }
{
    match kind {
        Some(kind) => ValueRef::Text(kind.word().as_bytes()),
        None => ValueRef::Null,
    }
}

/// A time that may be unknown, as a parameter.
pub(crate) fn time_param<'v>(time: Option<i64>) -> ValueRef<'v>
    ensures { bound_value (owned result) ≡ or_null Int time }
{
    match time {
        Some(time) => ValueRef::Int(time),
        None => ValueRef::Null,
    }
}

/// Whether a file exists, as a parameter.
pub(crate) fn exists_param<'v>(exists: bool) -> ValueRef<'v>
    ensures { bound_value (owned result) ≡ truth exists }
{
    if exists {
        ValueRef::Int(1)
    } else {
        ValueRef::Int(0)
    }
}

/// Bytes as a parameter.
pub(crate) fn blob_param(bytes: &[u8]) -> ValueRef<'_>
    ensures { bound_value (owned result) ≡ Blob bytes.now }
{
    ValueRef::Blob(bytes)
}

/// The suffix of a name, as a parameter.
pub(crate) fn suffix_param(suffix: &Option<Vec<u8>>) -> ValueRef<'_>
    ensures { bound_value (owned result)
        ≡ or_null Blob (option_map (λ bytes. bytes.items) suffix.now) }
{
    match suffix {
        Some(bytes) => ValueRef::Blob(bytes.as_slice()),
        None => ValueRef::Null,
    }
}

/// Bytes that may be unknown, as a parameter.
pub(crate) fn bytes_param(bytes: &Option<ByteString>) -> ValueRef<'_>
    ensures { bound_value (owned result) ≡ or_null Blob bytes.now }
{
    match bytes {
        Some(bytes) => ValueRef::Blob(bytes.as_bytes()),
        None => ValueRef::Null,
    }
}
