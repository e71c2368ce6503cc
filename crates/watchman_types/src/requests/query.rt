//! Queries.
ghost use Rattle.std.specs.Prelude.{◌≡◌, []};
ghost use Rattle.bser_structs.specs.Entries.{entries_tree};
ghost use Rattle.watchman_types.specs.Queries.{path_tree, query_entries, selection_entries, origin_entries, comparing_entries, answering_entries};
ghost use Rattle.watchman_types.specs.Terms.{tagged, bytes_tree};

use crate::requests::bytes::Bytes;
use crate::requests::expression::Expression;
use crate::requests::moment::Moment;
use crate::requests::object::Object;
use bser_format::errors::Result;
use bser_ser::{Serialize, Serializer};
use bser_source::device::Sink;
use bser_structs::{PutField, PutFields, fields_given, put_fields};
use std::alloc::Global;

/// A file or directory, below the root, that a query is to go through.
#[derive(Clone, Copy)]
pub struct Path<'a> {
    pub path: Bytes<'a>,
    /// How many levels below the directory it goes, 0 for its own files. All, without it.
    pub depth: Option<u32>,
}

impl<'a> Serialize for Path<'a> {
    ghost meaning = { path_tree };

    fn serialize<W: Sink>(&self, alloc: Global, out: &mut Serializer<W>) -> Result<()> {
        match self.depth {
            Some(depth) => {
                Object((("path", &self.path), (("depth", &depth), ()))).serialize(alloc, out)
            }
            None => self.path.serialize(alloc, out),
        }
    }
}

/// Which files a query asks for, and which fields of each. What is `None` is left out, so that the
/// server's own choice holds.
///
/// Files are taken from `since`, `path`, `suffix` or `glob`, or are all below the root;
/// `expression` says which of these are listed.
#[derive(Clone, Copy)]
pub struct Query<'a> {
    /// Those that changed after this moment.
    pub since: Option<Moment<'a>>,
    /// Those for which this holds.
    pub expression: Option<Expression<'a>>,
    /// The fields of each file that are asked for.
    pub fields: Option<&'a [&'a str]>,
    /// Those below these paths.
    pub path: Option<&'a [Path<'a>]>,
    /// Those whose names end in one of these behind a point.
    pub suffix: Option<&'a [&'a str]>,
    /// Those whose paths match one of these.
    pub glob: Option<&'a [&'a str]>,
    /// Whether globs match names that begin with a point.
    pub glob_include_dot_files: Option<bool>,
    /// Whether a backslash in a glob is one.
    pub glob_no_escape: Option<bool>,
    /// The directory below the root to which paths are relative.
    pub relative_root: Option<Bytes<'a>>,
    /// Whether small and capital letters differ.
    pub case_sensitive: Option<bool>,
    /// Whether a file that several of the above give is listed once.
    pub dedup_results: Option<bool>,
    /// Whether no file is listed where the server does not know `since` any more.
    pub empty_on_fresh_instance: Option<bool>,
    /// Whether the answer has only the clock, and no changed files. Watchman 4.9.0 lists them
    /// anyway.
    pub omit_changed_files: Option<bool>,
    /// Whether directories are listed where one of their files changed.
    pub always_include_directories: Option<bool>,
    /// How long the server may wait until it has seen all changes so far, in milliseconds; 0 for not
    /// at all.
    pub sync_timeout: Option<u32>,
    /// How long it may wait for its lock, in milliseconds.
    pub lock_timeout: Option<u32>,
    /// A name of this query, for the server's log.
    pub request_id: Option<&'a str>,
}

impl<'a> Query<'a> {
    /// Makes a query with no field.
    pub fn new() -> Self
        ensures { query_entries result ≡ [] }
    {
        Query {
            since: None,
            expression: None,
            fields: None,
            path: None,
            suffix: None,
            glob: None,
            glob_include_dot_files: None,
            glob_no_escape: None,
            relative_root: None,
            case_sensitive: None,
            dedup_results: None,
            empty_on_fresh_instance: None,
            omit_changed_files: None,
            always_include_directories: None,
            sync_timeout: None,
            lock_timeout: None,
            request_id: None,
        }
    }
}

/// The entries that say which files, and which of their fields.
#[derive(Clone, Copy)]
struct Selection<'q, 'a>(&'q Query<'a>);

macro_rules! selection_fields {
    ($query:expr) => {
        fields_given!(
            $query,
            since: Optional("since"),
            expression: Optional("expression"),
            fields: Optional("fields"),
        )
    };
}

impl<'q, 'a> PutField for Selection<'q, 'a> {
    ghost entry = { λ f. selection_entries f.0.now };

    fn count(&self) -> usize {
        selection_fields!(self.0).count()
    }

    fn put<W: Sink>(&self, alloc: Global, out: &mut Serializer<W>) -> Result<()> {
        selection_fields!(self.0).put_each(alloc, out)
    }
}

/// The entries that say from where files are taken.
#[derive(Clone, Copy)]
struct Origins<'q, 'a>(&'q Query<'a>);

macro_rules! origins_fields {
    ($query:expr) => {
        fields_given!(
            $query,
            path: Optional("path"),
            suffix: Optional("suffix"),
            glob: Optional("glob"),
        )
    };
}

impl<'q, 'a> PutField for Origins<'q, 'a> {
    ghost entry = { λ f. origin_entries f.0.now };

    fn count(&self) -> usize {
        origins_fields!(self.0).count()
    }

    fn put<W: Sink>(&self, alloc: Global, out: &mut Serializer<W>) -> Result<()> {
        origins_fields!(self.0).put_each(alloc, out)
    }
}

/// The entries that say how paths are compared, and which files are listed once or not at all.
#[derive(Clone, Copy)]
struct Comparing<'q, 'a>(&'q Query<'a>);

macro_rules! comparing_fields {
    ($query:expr) => {
        fields_given!(
            $query,
            glob_include_dot_files: Optional("glob_includedotfiles"),
            glob_no_escape: Optional("glob_noescape"),
            relative_root: Optional("relative_root"),
            case_sensitive: Optional("case_sensitive"),
            dedup_results: Optional("dedup_results"),
            empty_on_fresh_instance: Optional("empty_on_fresh_instance"),
        )
    };
}

impl<'q, 'a> PutField for Comparing<'q, 'a> {
    ghost entry = { λ f. comparing_entries f.0.now };

    fn count(&self) -> usize {
        comparing_fields!(self.0).count()
    }

    fn put<W: Sink>(&self, alloc: Global, out: &mut Serializer<W>) -> Result<()> {
        comparing_fields!(self.0).put_each(alloc, out)
    }
}

/// The other entries.
#[derive(Clone, Copy)]
struct Answering<'q, 'a>(&'q Query<'a>);

macro_rules! answering_fields {
    ($query:expr) => {
        fields_given!(
            $query,
            omit_changed_files: Optional("omit_changed_files"),
            always_include_directories: Optional("always_include_directories"),
            sync_timeout: Optional("sync_timeout"),
            lock_timeout: Optional("lock_timeout"),
            request_id: Optional("request_id"),
        )
    };
}

impl<'q, 'a> PutField for Answering<'q, 'a> {
    ghost entry = { λ f. answering_entries f.0.now };

    fn count(&self) -> usize {
        answering_fields!(self.0).count()
    }

    fn put<W: Sink>(&self, alloc: Global, out: &mut Serializer<W>) -> Result<()> {
        answering_fields!(self.0).put_each(alloc, out)
    }
}

impl<'a> PutFields for Query<'a> {
    ghost entries = { query_entries };

    fn count(&self) -> usize {
        (
            Selection(self),
            (Origins(self), (Comparing(self), (Answering(self), ()))),
        )
            .count()
    }

    fn put_each<W: Sink>(&self, alloc: Global, out: &mut Serializer<W>) -> Result<()> {
        (
            Selection(self),
            (Origins(self), (Comparing(self), (Answering(self), ()))),
        )
            .put_each(alloc, out)
    }
}

impl<'a> Serialize for Query<'a> {
    ghost meaning = { λ q. entries_tree (query_entries q) };

    fn serialize<W: Sink>(&self, alloc: Global, out: &mut Serializer<W>) -> Result<()> {
        put_fields(alloc, out, self)
    }
}

/// `query`: the files below a root.
#[derive(Clone, Copy)]
pub struct QueryRequest<'a> {
    pub root: Bytes<'a>,
    pub query: Query<'a>,
}

impl<'a> Serialize for QueryRequest<'a> {
    ghost use Rattle.std.specs.Prelude.{codes, ◌∷◌};

    ghost meaning = { λ r. tagged (codes "query")
        (bytes_tree r.root ∷ entries_tree (query_entries r.query) ∷ []) };

    fn serialize<W: Sink>(&self, alloc: Global, out: &mut Serializer<W>) -> Result<()> {
        ("query", self.root, &self.query).serialize(alloc, out)
    }
}
