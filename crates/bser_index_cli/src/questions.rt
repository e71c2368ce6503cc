//! Answers what an index is asked.

use crate::printing::{Printer, Shown};
use index_following::request::{Asked, RequestForm, print_request, request_of};
use sqlite::{Alter, Connection, params};
use std::alloc::Global;
use std::io::Write;
use watchman_sqlite::connection::{Stored, read_stored, visit_all};
use watchman_sqlite::error::IndexError;
use watchman_sqlite::schema::{FILES, NAMED, PRESENT, SUFFIX};
use watchman_sqlite::subject::read_subject;

/// Prints the last clock as it is. False where there is none.
pub(crate) fn print_last_clock<S: Alter, W: Write>(
    conn: &mut Connection<S>,
    out: &mut W,
) -> Result<bool, IndexError> {
    let Stored { clock, .. } = read_stored(conn)?;
    match &clock {
        Some(clock) => {
            out.write_all(clock.as_bytes())?;
            out.write_all(b"\n")?;
            Ok(true)
        }
        None => Ok(false),
    }
}

/// Prints the request whose answer comes next.
pub(crate) fn print_next_request<S: Alter, W: Write>(
    alloc: Global,
    conn: &mut Connection<S>,
    asked: Asked<'_>,
    form: RequestForm,
    out: &mut W,
) -> Result<(), IndexError> {
    let Some(subject) = read_subject(alloc, conn)? else {
        return Err(IndexError::NoSubject);
    };
    let Stored { origin, clock, .. } = read_stored(conn)?;
    let request = request_of(alloc, &subject, asked, &origin.subscription, clock)?;
    print_request(alloc, form, &request, out)
}

/// Which files are listed.
#[derive(Debug, Clone, Copy, PartialEq, Eq)]
pub(crate) enum Which<'a> {
    /// Those that exist.
    Present,
    /// Those that exist, and those that were deleted.
    All,
    /// Those that exist and have this suffix, in letters of either case.
    Suffix(&'a str),
}

/// Prints files.
pub(crate) fn print_list<S: Alter, W: Write>(
    alloc: Global,
    conn: &mut Connection<S>,
    which: Which<'_>,
    shown: Shown<'_>,
    out: &mut W,
) -> Result<(), IndexError> {
    let mut printer = Printer {
        alloc,
        shown,
        out,
        count: 0,
    };
    match which {
        Which::Present => visit_all(conn, PRESENT, params![], &mut printer),
        Which::All => visit_all(conn, FILES, params![], &mut printer),
        Which::Suffix(suffix) => {
            let lower = suffix.as_bytes().to_ascii_lowercase(alloc)?;
            visit_all(conn, SUFFIX, params![&lower], &mut printer)
        }
    }
}

/// Prints what is known of the file with this name. False where nothing is.
pub(crate) fn print_stat<S: Alter, W: Write>(
    alloc: Global,
    conn: &mut Connection<S>,
    name: &[u8],
    shown: Shown<'_>,
    out: &mut W,
) -> Result<bool, IndexError> {
    let mut printer = Printer {
        alloc,
        shown,
        out,
        count: 0,
    };
    visit_all(conn, NAMED, params![name], &mut printer)?;
    Ok(printer.count > 0)
}
