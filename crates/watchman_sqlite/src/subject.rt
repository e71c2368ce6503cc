//! What an index is of: the query whose answers it takes.
ghost use Rattle.std.specs.Prelude.{◌≡◌, ◌≢◌, [], List, Some, Ok, IfOk, IfErr, IfSome, IfNone};
ghost use Rattle.std.specs.Prelude.{IsTrue, OnOk, OnErr, slice_get, string_bytes};
ghost use Rattle.sqlite.specs.Held.{state};
ghost use Rattle.sqlite.specs.Order.{Row as Values};
ghost use Rattle.sqlite.specs.State.{HasCleanDisk, KeepsCommit, Shown, Survives};
ghost use Rattle.watchman_sqlite.specs.Errors.{IsOfMaking};
ghost use Rattle.watchman_sqlite.specs.Fields.{behind_words, field_word, field_words};
ghost use Rattle.watchman_sqlite.specs.Subjects.{IsSubjectOf, IsUnreadSubject, KeepsSubject};
ghost use Rattle.watchman_sqlite.specs.declared.subject.FileField.{FileField};

use crate::error::IndexError;
use crate::record::bytes_at;
use serde_bser::bytestring::ByteString;
use sqlite::{Alter, Connection, Transaction, params};
use std::alloc::{AllocError, Global};

/// A field of a file that an index keeps.
#[derive(Debug, Clone, Copy, PartialEq, Eq)]
pub enum FileField {
    /// The path, from the root or the relative root on.
    Name,
    /// Whether the file exists.
    Exists,
    /// How many bytes it has.
    Size,
    /// Its type and permissions.
    Mode,
    /// Its type.
    Type,
    /// When its content changed last.
    ModificationTime,
}

/// All fields that an index keeps.
pub const FIELDS: [FileField; 6] = [
    FileField::Name,
    FileField::Exists,
    FileField::Size,
    FileField::Mode,
    FileField::Type,
    FileField::ModificationTime,
];

impl FileField {
    /// Watchman's word for it.
    pub fn word(self) -> &'static str
        ensures { result.now ≡ field_word self }
    {
        match self {
            FileField::Name => "name",
            FileField::Exists => "exists",
            FileField::Size => "size",
            FileField::Mode => "mode",
            FileField::Type => "type",
            FileField::ModificationTime => "mtime_ms",
        }
    }

    /// The field of this word. `None` for one that an index does not keep.
    pub fn from_word(word: &str) -> Option<FileField>
        ensures found { IfSome result (λ field. field_word field ≡ word.now) }
        ensures none { IfNone result ((field : FileField) → field_word field ≢ word.now) }
    {
        match word {
            "name" => Some(FileField::Name),
            "exists" => Some(FileField::Exists),
            "size" => Some(FileField::Size),
            "mode" => Some(FileField::Mode),
            "type" => Some(FileField::Type),
            "mtime_ms" => Some(FileField::ModificationTime),
            _ => None,
        }
    }
}

/// What an index is of.
#[derive(Debug, Drop)]
pub struct Subject {
    /// The root that the server watches.
    pub root: ByteString,
    /// The folder below the root that names are relative to, if it is not the root itself.
    pub relative_root: Option<ByteString>,
    /// Which files are asked for, as a JSON text in one line. All, without it.
    pub expression: Option<String>,
    /// The fields that are asked for, `name` and `exists` among them.
    pub fields: Vec<FileField>,
}

/// The table of what an index is of. It has one row where the index was made by `init`, and else
/// none. The words of the fields are parted by commas.
pub const CREATE_SUBJECT: &str = "CREATE TABLE subject (id INTEGER PRIMARY KEY,
root BLOB NOT NULL, relative_root BLOB, expression TEXT, fields TEXT NOT NULL)";

/// Asks what an index is of.
pub const SUBJECT: &str =
    "SELECT root, relative_root, expression, fields FROM subject WHERE id = 1";

/// Keeps what an index is of.
pub const KEEP: &str = "INSERT INTO subject (id, root, relative_root, expression, fields)
VALUES (1, ?1, ?2, ?3, ?4)";

/// What an index is of. `None` for one that was not made by `init`.
pub fn read_subject<S: Alter>(
    alloc: Global,
    conn: &mut Connection<S>,
) -> Result<Option<Subject>, IndexError>
    ensures found { HasCleanDisk (state S.Store conn.new)
        → IfOk result (λ subject. (rows : List Values)
        × Shown SUBJECT.now [] (state S.Store conn.old) (state S.Store conn.new) rows
        × IsSubjectOf (slice_get rows 0) subject) }
    ensures reason { IfErr result IsUnreadSubject }
    ensures clean { HasCleanDisk (state S.Store conn.new) → HasCleanDisk (state S.Store conn.old) }
{
    let rows = conn.query_all(SUBJECT, params![])?;
    let Some(row) = rows.first() else {
        return Ok(None);
    };
    let root: Vec<u8> = row.get(0)?;
    let words: String = row.get(3)?;
    Ok(Some(Subject {
        root: ByteString::from_vec(root),
        relative_root: bytes_at(row, 1)?,
        expression: row.get(2)?,
        fields: fields_of(alloc, words.as_str())?,
    }))
}

/// Keeps what an index is of. It has to be one of which nothing is kept yet.
pub fn write_subject<S: Alter>(
    alloc: Global,
    transaction: &mut Transaction<'_, S>,
    subject: &Subject,
) -> Result<(), IndexError>
    ensures same_reference { transaction.new.conn.ghost_name ≡ transaction.old.conn.ghost_name }
    ensures kept { HasCleanDisk (state S.Store transaction.new.conn.now)
        → IsTrue (state S.Store transaction.old.conn.now).in_transaction
        → OnOk result (KeepsSubject S.Store (Some subject.now) transaction.old.conn.now
        transaction.new.conn.now) }
    ensures failed { HasCleanDisk (state S.Store transaction.new.conn.now)
        → IsTrue (state S.Store transaction.old.conn.now).in_transaction
        → OnErr result (KeepsCommit (state S.Store transaction.old.conn.now)
        (state S.Store transaction.new.conn.now)) }
    ensures survives { Survives (state S.Store transaction.old.conn.now)
        (state S.Store transaction.new.conn.now) (λ _. ⊥) }
    ensures err { IfErr result IsOfMaking }
{
    let root = subject.root.as_bytes();
    let relative_root = subject.relative_root.as_ref().map(|path| path.as_bytes());
    let expression = subject.expression.as_ref().map(|text| text.as_str());
    let fields = words_of(alloc, &subject.fields)?;
    transaction.execute(
        KEEP,
        params![root, relative_root, expression, fields.as_str()],
    )?;
    Ok(())
}

/// The fields of words that are parted by commas.
fn fields_of(alloc: Global, words: &str) -> Result<Vec<FileField>, IndexError>
    ensures found { IfOk result (λ fields. field_words fields.items ≡ words.now) }
    ensures err { IfErr result IsUnreadSubject }
{
    let mut fields = Vec::new(alloc);
    for word in words.split(',') {
        match FileField::from_word(word) {
            Some(field) => fields.push(field)?,
            None => return Err(IndexError::NoIndex),
        }
    }
    Ok(fields)
}

/// The words of the fields, parted by commas.
#[tactic(auto, using(crate::proofs::FieldWords::field_words_push, std::proofs::lemmas::List::take_more))]
fn words_of(alloc: Global, fields: &[FileField]) -> Result<String, AllocError>
    ensures { IfOk result (λ words. string_bytes words ≡ field_words fields.now) }
{
    let mut words = String::new(alloc);
    for field in fields {
        put_word(&mut words, field.word())?;
    }
    Ok(words)
}

/// Puts a word behind the others.
fn put_word(words: &mut String, word: &str) -> Result<(), AllocError>
    ensures { OnOk result (string_bytes words.new
        ≡ behind_words (string_bytes words.old) word.now) }
{
    if !words.is_empty() {
        words.push(',')?;
    }
    words.push_str(word)
}
