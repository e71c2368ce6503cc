//! The tables of an index, and the statements that write them.
//!
//! `layout` has one row, the version of the layout. `subject` says which query the index is of.
//! `source` has one row: how many messages were added, what they are of, and the last clock.
//! `clock` has for each clock that is known the number of the last message up to it. `cursor` has for
//! each name the number of the last message whose changes were printed by this name. `file` has a
//! row for each file that was ever listed: `told` is the number of the last message that listed it,
//! and `changed` that of the last one that changed it.

/// The version of the layout of the tables. The indices without a version have other tables. Those of
/// version 2 have no cursors, and may have a clock under too late a number.
pub const LAYOUT: i64 = 3;

/// The names of the tables.
pub const TABLES: [&str; 6] = ["clock", "cursor", "file", "layout", "source", "subject"];

/// The names of the tables of an index without a version.
pub const OLD_TABLES: [&str; 3] = ["clock", "file", "source"];

/// The names of the tables that there are.
pub const NAMES: &str = "SELECT name FROM sqlite_schema WHERE type = 'table'";

/// The version of the layout that an index has.
pub const VERSION: &str = "SELECT version FROM layout WHERE id = 1";

/// How many messages were added, what they are of, and the last clock.
pub const STORED: &str = "SELECT messages, root, subscription, clock FROM source WHERE id = 1";

/// The number of the last message up to this clock.
pub const NUMBER: &str = "SELECT message FROM clock WHERE clock = ?1";

/// Makes the tables, but for the one of what the index is of.
pub const CREATE: &str = "CREATE TABLE layout (id INTEGER PRIMARY KEY,
version INTEGER NOT NULL);
CREATE TABLE source (id INTEGER PRIMARY KEY, messages INTEGER NOT NULL, root BLOB,
subscription BLOB, clock BLOB);
CREATE TABLE cursor (id INTEGER PRIMARY KEY, name BLOB NOT NULL UNIQUE, message INTEGER NOT NULL);
CREATE TABLE clock (id INTEGER PRIMARY KEY, clock BLOB NOT NULL UNIQUE, message INTEGER NOT NULL);
CREATE TABLE file (id INTEGER PRIMARY KEY, name BLOB NOT NULL UNIQUE, suffix BLOB,
present INTEGER NOT NULL, size INTEGER, mode INTEGER, type TEXT, mtime_ms INTEGER,
told INTEGER NOT NULL, changed INTEGER NOT NULL);
INSERT INTO source (id, messages) VALUES (1, 0)";

/// Keeps the version of the layout.
pub const KEEP_LAYOUT: &str = "INSERT INTO layout (id, version) VALUES (1, ?1)";

/// Stores the row of a file: name, suffix, whether it is present, size, mode, type, time, and the
/// numbers of the messages that told and changed it last.
pub const PUT: &str =
    "INSERT INTO file (name, suffix, present, size, mode, type, mtime_ms, told, changed)
VALUES (?1, ?2, ?3, ?4, ?5, ?6, ?7, ?8, ?9)
ON CONFLICT (name) DO UPDATE SET
present = excluded.present, size = excluded.size, mode = excluded.mode, type = excluded.type,
mtime_ms = excluded.mtime_ms, told = excluded.told, changed = excluded.changed";

/// Keeps a clock and the number of the last message.
pub const CLOCK: &str = "INSERT INTO clock (clock, message) VALUES (?1, ?2)
ON CONFLICT (clock) DO UPDATE SET message = excluded.message";

/// Keeps the number of messages, the root, the subscription and the clock.
pub const SOURCE: &str = "UPDATE source SET messages = ?1, root = ?2, subscription = ?3, clock = ?4
WHERE id = 1";

/// All of the table of clocks.
pub const CLOCKS: &str = "SELECT clock, message FROM clock ORDER BY clock";

/// All of the table of files.
pub const WHOLE: &str =
    "SELECT name, present, size, mode, type, mtime_ms, changed, told, suffix FROM file
ORDER BY name";

/// What is known of all files.
pub const FILES: &str =
    "SELECT name, present, size, mode, type, mtime_ms, changed, told FROM file ORDER BY name";

/// What is known of the files that exist.
pub const PRESENT: &str = "SELECT name, present, size, mode, type, mtime_ms, changed, told FROM file
WHERE present = 1 ORDER BY name";

/// What is known of the files that exist and have this suffix.
pub const SUFFIX: &str = "SELECT name, present, size, mode, type, mtime_ms, changed, told FROM file
WHERE present = 1 AND suffix = ?1 ORDER BY name";

/// What is known of the file of this name.
pub const NAMED: &str =
    "SELECT name, present, size, mode, type, mtime_ms, changed, told FROM file WHERE name = ?1";

/// The number of the last message whose changes were printed by this name.
pub const CURSOR: &str = "SELECT message FROM cursor WHERE name = ?1";

/// Keeps the number of the last message whose changes were printed by a name.
pub const KEEP_CURSOR: &str = "INSERT INTO cursor (name, message) VALUES (?1, ?2)
ON CONFLICT (name) DO UPDATE SET message = excluded.message";

/// Removes the files that are gone since this message or an earlier one.
pub const PRUNE_FILES: &str = "DELETE FROM file WHERE present = 0 AND changed <= ?1";

/// Removes the clocks of the messages before this one.
pub const PRUNE_CLOCKS: &str = "DELETE FROM clock WHERE message < ?1";

/// Removes the cursors that stand before this message.
pub const PRUNE_CURSORS: &str = "DELETE FROM cursor WHERE message < ?1";
