//! Rows of the table of files.
ghost use Rattle.std.specs.Prelude.{◌≡◌, ◌≢◌, ℕ, List, Option, string_bytes, IfOk, IfErr, OnOk};
ghost use Rattle.std.specs.Option.{option_map};
ghost use Rattle.std.specs.Str.{str_to_ascii_lowercase};
ghost use Rattle.watchman_index.specs.Suffixes.{suffix_of};
ghost use Rattle.watchman_types.specs.Words.{file_type_word};
ghost use Rattle.sqlite.specs.Values.{or_null};
ghost use Rattle.sqlite.specs.declared.types.Value.TheVariants.{Blob};
ghost use Rattle.watchman_sqlite.specs.Columns.{Holds, IsUnread, no_memory};
ghost use Rattle.watchman_sqlite.specs.Records.{HasMode, IsNoRecord, IsNoType, IsRecord};
ghost use Rattle.watchman_sqlite.specs.declared.error.IndexError.{IndexError};
ghost use Rattle.watchman_sqlite.specs.declared.record.Record.{Record};

use crate::error::IndexError;
use serde_bser::bytestring::ByteString;
use sqlite::Row as DatabaseRow;
use std::alloc::{AllocError, Global};
use watchman_index::row::{FileState, Row};
use watchman_index::suffix::suffix_of;
use watchman_types::file_type::FileType;

/// What the index has of a file.
#[derive(Debug, Drop)]
pub struct Record {
    pub name: ByteString,
    pub row: Row,
}

impl Record {
    /// The record of a row with the columns that the questions ask for.
    ///
    /// Where there is memory, it fails only for a row that is no record's:
    /// [`UnknownType`](IndexError::UnknownType) where a word stands in the place of a type's letter,
    /// and else [`Database`](IndexError::Database), which names the column.
    pub fn read(row: &DatabaseRow) -> Result<Record, IndexError>
        ensures found { IfOk result (IsRecord row.now) }
        ensures refused { IfErr result (λ e. e ≢ no_memory
            → (r : Record) → HasMode r → ¬ IsRecord row.now r) }
        ensures reason { IfErr result (IsNoRecord row.now) }
    {
        let name: Vec<u8> = row.get(0)?;
        let letter: Option<String> = row.get(4)?;
        let state = FileState {
            exists: row.get(1)?,
            size: row.get(2)?,
            mode: row.get(3)?,
            kind: match letter {
                Some(letter) => Some(type_of(letter)?),
                None => None,
            },
            mtime_ms: row.get(5)?,
        };
        let changed = row.get(6)?;
        let told = row.get(7)?;
        Ok(Record {
            name: ByteString::from_vec(name),
            row: Row {
                state,
                told,
                changed,
            },
        })
    }
}

/// The type of a letter in the table.
fn type_of(letter: String) -> Result<FileType, IndexError>
    ensures found { IfOk result (λ kind. file_type_word kind ≡ string_bytes letter) }
    ensures none { IfErr result (λ e. (e ≡ IndexError.UnknownType letter)
        × IsNoType (string_bytes letter)) }
{
    match FileType::from_word(letter.as_str()) {
        Some(kind) => Ok(kind),
        None => Err(IndexError::UnknownType(letter)),
    }
}

/// The byte string of this column, if it has one.
pub fn bytes_at(row: &DatabaseRow, at: usize) -> Result<Option<ByteString>, IndexError>
    ensures found { IfOk result (λ bytes. Holds row.now at (or_null Blob bytes)) }
    ensures refused { IfErr result (λ e. e ≢ no_memory
        → (bytes : Option (List ℕ)) → ¬ Holds row.now at (or_null Blob bytes)) }
    ensures reason { IfErr result (IsUnread row.now at) }
{
    let bytes: Option<Vec<u8>> = row.get(at)?;
    Ok(bytes.map(ByteString::from_vec))
}

/// The suffix of a name, with ASCII letters in lower case, as the table has it.
pub fn lower_suffix(alloc: Global, name: &[u8]) -> Result<Option<Vec<u8>>, AllocError>
    ensures { IfOk result (λ found. option_map (λ bytes. bytes.items) found
        ≡ option_map str_to_ascii_lowercase (suffix_of name.now)) }
{
    match suffix_of(name) {
        Some(suffix) => Ok(Some(suffix.to_ascii_lowercase(alloc)?)),
        None => Ok(None),
    }
}

/// What takes records, one after the other.
pub trait Visitor {
    // what it is once it took a record
    ghost visits: { Self → Record → Self → Type 0 };

    // the errors that it may give
    ghost halts: { IndexError → Type 0 };

    /// Takes the next record.
    fn visit(&mut self, next: Record) -> Result<(), IndexError>
        ensures ok { OnOk result (visits self.old next self.new) }
        ensures err { IfErr result halts };
}
