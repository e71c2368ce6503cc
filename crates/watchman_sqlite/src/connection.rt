//! What an index is asked for.
ghost use Rattle.std.specs.Prelude.{◌≡◌, ◌⊎◌, ◌^◌, ◌-◌, pos, min, [], ◌∷◌, List, Ok, IfOk};
ghost use Rattle.std.specs.Prelude.{IfErr, IfSome, IfNone, OnOk, OnErr, IsTrue, MatchBool, map};
ghost use Rattle.std.specs.Option.{option_copied};
ghost use Rattle.sqlite.specs.Effect.{Database};
ghost use Rattle.sqlite.specs.Given.{IsPlain};
ghost use Rattle.sqlite.specs.Held.{state};
ghost use Rattle.sqlite.specs.Listing.{understood};
ghost use Rattle.sqlite.specs.Order.{Row as Values};
ghost use Rattle.sqlite.specs.State.{HasCleanDisk, KeepsCommit, QueriesRow, Shown, Survives};
ghost use Rattle.sqlite.specs.Values.{bound};
ghost use Rattle.sqlite.specs.declared.types.Value.TheVariants.{Blob, Int};
ghost use Rattle.watchman_sqlite.specs.Columns.{IsOfDatabase};
ghost use Rattle.watchman_sqlite.specs.Errors.{IsOfMaking, IsOfTables};
ghost use Rattle.watchman_sqlite.specs.Layouts.{AreNamed, HasOtherTables, HasOtherVersion, HasTables};
ghost use Rattle.watchman_sqlite.specs.Layouts.{IsAsBefore, IsNamed, IsThisLayout, IsUnnamed};
ghost use Rattle.watchman_sqlite.specs.Layouts.{MadeTables, OneIsUnnamed, PutTables, TellsVersion};
ghost use Rattle.watchman_sqlite.specs.Questions.{IsNumberOf, IsStored};
ghost use Rattle.watchman_sqlite.specs.Records.{IsUnreadAnswer, VisitedAnswer, VisitsSince};
ghost use Rattle.watchman_sqlite.specs.Subjects.{KeepsSubject};

use crate::error::IndexError;
use crate::record::{Record, Visitor, bytes_at};
use crate::schema::{
    CREATE, FILES, KEEP_LAYOUT, LAYOUT, NAMES, NUMBER, OLD_TABLES, STORED, TABLES, VERSION,
};
use crate::subject::{CREATE_SUBJECT, Subject, write_subject};
use serde_bser::bytestring::ByteString;
use sqlite::types::ValueRef;
use sqlite::{Alter, Connection, Row, Transaction, params};
use std::alloc::Global;
use watchman_index::origin::Origin;

/// What an index has of its messages.
#[derive(Debug, Drop)]
pub struct Stored {
    /// How many messages that told files were added.
    pub messages: u64,
    /// What they are of.
    pub origin: Origin,
    /// The last clock.
    pub clock: Option<ByteString>,
}

/// Whether the database is an index, or has no tables at all. Tables of others may stand beside
/// those of an index. Fails for a database of something else, and for an index of another layout.
pub fn has_tables<S: Alter>(conn: &mut Connection<S>) -> Result<bool, IndexError>
    ensures found { HasCleanDisk (state S.Store conn.new)
        → IfOk result (HasTables S.Store conn.old conn.new) }
    ensures refused { HasCleanDisk (state S.Store conn.new)
        → IfErr result (HasOtherTables S.Store conn.old conn.new) }
    ensures err { IfErr result IsOfTables }
    ensures clean { HasCleanDisk (state S.Store conn.new) → HasCleanDisk (state S.Store conn.old) }
{
    let rows = conn.query_all(NAMES, params![])?;
    if has_all(&rows, &TABLES)? {
        check_layout(conn)?;
        return Ok(true);
    }
    if has_all(&rows, &OLD_TABLES)? {
        return Err(IndexError::OtherLayout);
    }
    if rows.is_empty() {
        Ok(false)
    } else {
        Err(IndexError::NoIndex)
    }
}

/// Whether rows of names have each of these.
fn has_all(rows: &[Row], names: &[&str]) -> Result<bool, IndexError>
    ensures found { IfOk result (λ all. MatchBool all
        (AreNamed rows.now (map (λ name. name.now) names.now))
        (OneIsUnnamed rows.now (map (λ name. name.now) names.now))) }
    ensures err { IfErr result IsOfDatabase }
{
    for name in names {
        if !has_name(rows, *name)? {
            return Ok(false);
        }
    }
    Ok(true)
}

/// Whether rows of names have this one.
fn has_name(rows: &[Row], wanted: &str) -> Result<bool, IndexError>
    ensures found { IfOk result (λ found. MatchBool found
        (IsNamed rows.now wanted.now) (IsUnnamed rows.now wanted.now)) }
    ensures err { IfErr result IsOfDatabase }
{
    for row in rows {
        let name: String = row.get(0)?;
        if name.as_str() == wanted {
            return Ok(true);
        }
    }
    Ok(false)
}

/// Fails for an index of another layout.
fn check_layout<S: Alter>(conn: &mut Connection<S>) -> Result<(), IndexError>
    ensures ok { HasCleanDisk (state S.Store conn.new)
        → OnOk result (TellsVersion S.Store conn.old conn.new IsThisLayout) }
    ensures refused { HasCleanDisk (state S.Store conn.new)
        → IfErr result (HasOtherVersion S.Store conn.old conn.new) }
    ensures err { IfErr result IsOfTables }
    ensures clean { HasCleanDisk (state S.Store conn.new) → HasCleanDisk (state S.Store conn.old) }
{
    let rows = conn.query_all(VERSION, params![])?;
    let version: Option<i64> = match rows.first() {
        Some(row) => row.get(0)?,
        None => None,
    };
    if version == Some(LAYOUT) {
        Ok(())
    } else {
        Err(IndexError::OtherLayout)
    }
}

/// Makes the tables of an index of this subject, all of them or none. Without one the index is of
/// what its messages are of.
pub fn make_tables<S: Alter>(
    alloc: Global,
    conn: &mut Connection<S>,
    subject: Option<&Subject>,
) -> Result<(), IndexError>
    ensures made { HasCleanDisk (state S.Store conn.new) → OnOk result (MadeTables S.Store
        (option_copied subject.entry) conn.old (state S.Store conn.new).committed) }
    ensures neither { HasCleanDisk (state S.Store conn.new)
        → IsTrue (state S.Store conn.new).is_open
        → OnErr result (IsAsBefore (state S.Store conn.old) (state S.Store conn.new)) }
    ensures crash { Survives (state S.Store conn.old) (state S.Store conn.new)
        (λ trees. (db : Database)
        × MadeTables S.Store (option_copied subject.entry) conn.old db
        × (trees ≡ db.trees)) }
    ensures err { IfErr result IsOfMaking }
{
    if !conn.is_autocommit() {
        return Err(IndexError::NoIndex);
    }
    let mut transaction = conn.transaction();
    put_tables(alloc, &mut transaction, subject)?;
    transaction.commit()?;
    Ok(())
}

/// Makes the tables of an index of this subject.
fn put_tables<S: Alter>(
    alloc: Global,
    transaction: &mut Transaction<'_, S>,
    subject: Option<&Subject>,
) -> Result<(), IndexError>
    ensures same_reference { transaction.new.conn.ghost_name ≡ transaction.old.conn.ghost_name }
    ensures made { HasCleanDisk (state S.Store transaction.new.conn.now)
        → IsTrue (state S.Store transaction.old.conn.now).in_transaction
        → OnOk result (PutTables S.Store (option_copied subject.entry) transaction.old.conn.now
        transaction.new.conn.now) }
    ensures kept { HasCleanDisk (state S.Store transaction.new.conn.now)
        → IsTrue (state S.Store transaction.old.conn.now).in_transaction
        → OnErr result (KeepsCommit (state S.Store transaction.old.conn.now)
        (state S.Store transaction.new.conn.now)) }
    ensures survives { Survives (state S.Store transaction.old.conn.now)
        (state S.Store transaction.new.conn.now) (λ _. ⊥) }
    ensures err { IfErr result IsOfMaking }
{
    transaction.execute_batch(CREATE)?;
    transaction.execute_batch(CREATE_SUBJECT)?;
    transaction.execute(KEEP_LAYOUT, params![LAYOUT])?;
    keep_subject(alloc, transaction, subject)?;
    Ok(())
}

/// Keeps what an index is of, where that is known.
fn keep_subject<S: Alter>(
    alloc: Global,
    transaction: &mut Transaction<'_, S>,
    subject: Option<&Subject>,
) -> Result<(), IndexError>
    ensures same_reference { transaction.new.conn.ghost_name ≡ transaction.old.conn.ghost_name }
    ensures kept { HasCleanDisk (state S.Store transaction.new.conn.now)
        → IsTrue (state S.Store transaction.old.conn.now).in_transaction
        → OnOk result (KeepsSubject S.Store (option_copied subject.entry)
        transaction.old.conn.now transaction.new.conn.now) }
    ensures failed { HasCleanDisk (state S.Store transaction.new.conn.now)
        → IsTrue (state S.Store transaction.old.conn.now).in_transaction
        → OnErr result (KeepsCommit (state S.Store transaction.old.conn.now)
        (state S.Store transaction.new.conn.now)) }
    ensures survives { Survives (state S.Store transaction.old.conn.now)
        (state S.Store transaction.new.conn.now) (λ _. ⊥) }
    ensures err { IfErr result IsOfMaking }
{
    match subject {
        Some(subject) => write_subject(alloc, transaction, subject),
        None => Ok(()),
    }
}

/// What the index has of its messages.
pub fn read_stored<S: Alter>(conn: &mut Connection<S>) -> Result<Stored, IndexError>
    ensures found { HasCleanDisk (state S.Store conn.new) → IfOk result (λ stored. (row : Values)
        × QueriesRow STORED.now [] (state S.Store conn.old) (state S.Store conn.new) (Ok row)
        × IsStored row stored) }
    ensures err { IfErr result IsOfDatabase }
    ensures clean { HasCleanDisk (state S.Store conn.new) → HasCleanDisk (state S.Store conn.old) }
{
    let row = conn.query_row(STORED, params![])?;
    Ok(Stored {
        messages: row.get(0)?,
        origin: Origin {
            root: bytes_at(&row, 1)?,
            subscription: bytes_at(&row, 2)?,
        },
        clock: bytes_at(&row, 3)?,
    })
}

/// The number of the last message up to a clock. `None` for one that was not told.
pub fn number_of<S: Alter>(
    conn: &mut Connection<S>,
    clock: &[u8],
) -> Result<Option<u64>, IndexError>
    ensures found { HasCleanDisk (state S.Store conn.new)
        → IfOk result (λ number. (rows : List Values)
        × Shown NUMBER.now (Blob clock.now ∷ [])
        (state S.Store conn.old) (state S.Store conn.new) rows
        × IsNumberOf rows number) }
    ensures err { IfErr result IsOfDatabase }
    ensures clean { HasCleanDisk (state S.Store conn.new) → HasCleanDisk (state S.Store conn.old) }
{
    let rows = conn.query_all(NUMBER, params![clock])?;
    match rows.first() {
        Some(row) => Ok(Some(row.get(0)?)),
        None => Ok(None),
    }
}

/// Hands each record of the answer to the visitor.
pub fn visit_all<S: Alter, V: Visitor>(
    conn: &mut Connection<S>,
    question: &str,
    params: &[ValueRef<'_>],
    visitor: &mut V,
) -> Result<(), IndexError>
    ensures visited { HasCleanDisk (state S.Store conn.new)
        → IsPlain (understood conn.old.schema question.now)
        → OnOk result (VisitedAnswer S.Store V.visits question.now (bound params.now)
        conn.old conn.new visitor.old visitor.new) }
    ensures err { IfErr result (λ e. IsUnreadAnswer e ⊎ V.halts e) }
    ensures clean { HasCleanDisk (state S.Store conn.new) → HasCleanDisk (state S.Store conn.old) }
{
    let mut rows = conn.query(question, params)?;
    'rows: for _row in 0..u64::MAX {
        let Some(row) = rows.next()? else {
            return Ok(());
        };
        visitor.visit(Record::read(row)?)?;
    }
    Ok(())
}

/// Hands each record of a file that changed behind the message of this number to the visitor, and
/// without a number each of a file that exists.
pub fn visit_changes<S: Alter, V: Visitor>(
    conn: &mut Connection<S>,
    number: Option<u64>,
    visitor: &mut V,
) -> Result<(), IndexError>
    ensures changed { HasCleanDisk (state S.Store conn.new)
        → IsPlain (understood conn.old.schema FILES.now)
        → OnOk result (VisitedAnswer S.Store (VisitsSince V.visits number) FILES.now []
        conn.old conn.new visitor.old visitor.new) }
    ensures err { IfErr result (λ e. IsUnreadAnswer e ⊎ V.halts e) }
    ensures clean { HasCleanDisk (state S.Store conn.new) → HasCleanDisk (state S.Store conn.old) }
{
    let mut since = Since { number, visitor };
    visit_all(conn, FILES, params![], &mut since)?;
    Ok(())
}

/// Hands on the records of the files that changed behind the message of this number.
#[derive(Drop)]
struct Since<'v, V> {
    number: Option<u64>,
    visitor: &'v mut V,
}

impl<V: Visitor> Visitor for Since<'_, V> {
    ghost use Rattle.std.specs.Prelude.{◌≡◌};
    ghost use Rattle.watchman_sqlite.specs.Records.{VisitsSince};

    ghost visits = { λ old next new. (new.number ≡ old.number)
        × (new.visitor.ghost_name ≡ old.visitor.ghost_name)
        × VisitsSince V.visits old.number old.visitor.now next new.visitor.now };

    ghost halts = { λ e. V.halts e };

    fn visit(&mut self, next: Record) -> Result<(), IndexError> {
        if next.row.is_since(self.number) {
            self.visitor.visit(next)
        } else {
            Ok(())
        }
    }
}
