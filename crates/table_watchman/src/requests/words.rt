//! Requests that have the words which no session has: pywatchman 1.4.0 wrote them to a server of
//! Watchman 4.9.0. It answered all but those that are named so without an error.
use crate::requests::queries::{ROOT, compare, names_of};
use crate::requests::recording::RecordedRequests;
use watchman_types::requests::{
    Bytes, ClockRequest, Comparison, Dirname, Expression, FileType, FlushSubscriptionsRequest,
    Level, LogLevelRequest, LogRequest, Match, MatchFlags, Moment, Name, Names, Operator, Path,
    Pcre, Query, Scope, Since, StateEnterRequest, StateLeaveRequest, SubscribeRequest, TimeField,
};

/// A pattern without a scope.
const HEADERS: Match<'static> = Match {
    pattern: "*.h",
    scope: None,
    flags: Some(MatchFlags {
        include_dot_files: false,
        no_escape: true,
    }),
};

/// Queries by terms, and by other origins than an expression.
pub fn compare_queries(recording: &mut RecordedRequests<'_>) {
    compare_kinds(recording);
    compare_sizes(recording);
    compare_times(recording);
    compare_names(recording);
    compare_suffixes(recording);
    compare_origins(recording);
}

/// The types of files, of which the server refuses the last.
fn compare_kinds(recording: &mut RecordedRequests<'_>) {
    let kinds = [
        Expression::Type(FileType::BlockDevice),
        Expression::Type(FileType::CharacterDevice),
        Expression::Type(FileType::Directory),
        Expression::Type(FileType::Regular),
        Expression::Type(FileType::Fifo),
        Expression::Type(FileType::Symlink),
        Expression::Type(FileType::Socket),
        Expression::Type(FileType::Door),
    ];
    compare_names_of(recording, "query-kinds", Expression::AnyOf(&kinds));
    let unknown = Expression::Type(FileType::Unknown);
    compare_names_of(recording, "query-unknown-kind", unknown);
}

/// Sizes, by each operator.
fn compare_sizes(recording: &mut RecordedRequests<'_>) {
    let sizes = [
        Expression::Exists,
        Expression::Not(&Expression::Empty),
        size(Operator::Equal, 1),
        size(Operator::NotEqual, 2),
        size(Operator::Greater, 0),
        size(Operator::GreaterOrEqual, 1),
        size(Operator::Less, 70_000),
        size(Operator::LessOrEqual, 1),
    ];
    compare_names_of(recording, "query-sizes", Expression::AllOf(&sizes));
}

/// Changes since a moment, by each time of a file.
fn compare_times(recording: &mut RecordedRequests<'_>) {
    let clock = Moment::Clock("c:0:0");
    let times = [
        Expression::False,
        since(clock, Some(TimeField::ObservedClock)),
        since(clock, Some(TimeField::CreatedClock)),
        since(Moment::Time(5), Some(TimeField::ModificationTime)),
        since(Moment::Time(1_795_768_208), Some(TimeField::ChangeTime)),
        since(clock, None),
    ];
    compare_names_of(recording, "query-times", Expression::AnyOf(&times));
}

/// Names, by each way to compare them.
fn compare_names(recording: &mut RecordedRequests<'_>) {
    let path = Bytes(b"src");
    let (operator, number) = (Operator::GreaterOrEqual, 0);
    let depth = Some(Comparison { operator, number });
    let names = [Bytes(b"a.c"), Bytes(b"b.h")];
    let (pattern, scope) = ("*.c", Some(Scope::Basename));
    let flags = Some(MatchFlags {
        include_dot_files: true,
        no_escape: false,
    });
    let (any, wholename) = ("a", Some(Scope::Wholename));
    let terms = [
        Expression::Dirname(Dirname { path, depth: None }),
        Expression::Dirname(Dirname { path, depth }),
        Expression::Name(Name {
            names: Names::Several(&names),
            scope,
        }),
        Expression::Match(Match {
            pattern,
            scope,
            flags,
        }),
        Expression::Pcre(Pcre {
            pattern: any,
            scope: wholename,
        }),
        Expression::Pcre(Pcre {
            pattern: "c$",
            scope: None,
        }),
        Expression::Match(Match {
            pattern: "a*",
            scope: None,
            flags: None,
        }),
    ];
    compare_names_of(recording, "query-names-in", Expression::AllOf(&terms));
    compare_names_of(recording, "query-flags", Expression::Match(HEADERS));
}

/// Suffixes, of which the server refuses several in one term.
fn compare_suffixes(recording: &mut RecordedRequests<'_>) {
    let several = Expression::Suffixes(&["c", "h"]);
    compare_names_of(recording, "query-suffixes", several);
    compare_names_of(recording, "query-capitals", Expression::Suffix("C"));
}

/// Globs with all options, paths, suffixes, and a time.
fn compare_origins(recording: &mut RecordedRequests<'_>) {
    let fields: Option<&[&str]> = Some(&["name"]);
    let globs = Query {
        fields,
        glob: Some(&["**/*.c"]),
        glob_include_dot_files: Some(true),
        glob_no_escape: Some(false),
        relative_root: Some(Bytes(b"src")),
        case_sensitive: Some(true),
        dedup_results: Some(true),
        empty_on_fresh_instance: Some(false),
        omit_changed_files: Some(false),
        always_include_directories: Some(true),
        sync_timeout: Some(1000),
        lock_timeout: Some(100),
        request_id: Some("x"),
        ..Query::new()
    };
    compare(recording, "query-globs", globs);
    let path = Bytes(b"src");
    let paths = [
        Path { path, depth: None },
        Path {
            path,
            depth: Some(0),
        },
    ];
    let path = Some(paths.as_slice());
    compare(
        recording,
        "query-paths",
        Query {
            fields,
            path,
            ..Query::new()
        },
    );
    let suffix: Option<&[&str]> = Some(&["c", "h"]);
    compare(
        recording,
        "query-suffix",
        Query {
            fields,
            suffix,
            ..Query::new()
        },
    );
    let since = Some(Moment::Time(1_795_768_208));
    compare(
        recording,
        "query-since-time",
        Query {
            fields,
            since,
            ..Query::new()
        },
    );
}

/// Requests that are no queries.
pub fn compare_commands(recording: &mut RecordedRequests<'_>) {
    let root = ROOT;
    let sync_timeout = Some(100);
    recording.compare("clock-waiting", &ClockRequest { root, sync_timeout });
    let query = Query {
        fields: Some(&["name"]),
        ..Query::new()
    };
    let deferring = SubscribeRequest {
        defer_vcs: Some(false),
        ..SubscribeRequest::new(root, "quiet", query)
    };
    recording.compare("subscribe-deferring", &deferring);
    let flushed = FlushSubscriptionsRequest {
        root,
        sync_timeout: 100,
        subscriptions: Some(&["quiet"]),
    };
    recording.compare("flush-one", &flushed);
    let (level, line) = (Level::Off, "a line");
    recording.compare("log-off", &LogRequest { level, line });
    let (name, metadata) = ("build", None::<bool>);
    recording.compare(
        "state-enter-alone",
        &StateEnterRequest {
            root,
            name,
            metadata,
        },
    );
    recording.compare(
        "state-leave-alone",
        &StateLeaveRequest {
            root,
            name,
            metadata,
        },
    );
}

/// Operators without an operand, which the server refuses, and all lines of the log.
pub fn compare_last(recording: &mut RecordedRequests<'_>) {
    compare_names_of(recording, "query-no-operand-of-all", Expression::AllOf(&[]));
    compare_names_of(recording, "query-no-operand-of-any", Expression::AnyOf(&[]));
    let level = Level::Debug;
    recording.compare("log-level-debug", &LogLevelRequest { level });
}

/// Compares a query for the names of these files.
fn compare_names_of(recording: &mut RecordedRequests<'_>, name: &str, files: Expression<'_>) {
    compare(recording, name, names_of(files));
}

/// The term of a size.
fn size<'a>(operator: Operator, number: i64) -> Expression<'a> {
    Expression::Size(Comparison { operator, number })
}

/// The term of a change since a moment.
fn since(moment: Moment<'_>, field: Option<TimeField>) -> Expression<'_> {
    Expression::Since(Since { moment, field })
}
