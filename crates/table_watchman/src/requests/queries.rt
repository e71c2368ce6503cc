//! Queries, and the subscriptions by one.
use crate::requests::recording::RecordedRequests;
use watchman_types::requests::{
    Bytes, Expression, Match, Moment, Name, Names, Query, QueryRequest, Scope, SubscribeRequest,
    WatchProjectRequest,
};

/// The field of a name alone.
const NAME_ALONE: &[&str] = &["name"];

/// The root of the session.
pub const ROOT: Bytes<'static> = Bytes(b"/data/my/project");

/// The fields that most queries ask for.
const FIELDS: &[&str] = &["name", "exists", "new", "size", "mtime_ms", "mode", "type"];

/// The query for all files.
pub fn all_files<'a>() -> Query<'a> {
    Query {
        expression: Some(Expression::True),
        fields: Some(FIELDS),
        ..Query::new()
    }
}

/// Compares a query below the root.
pub fn compare<'a>(recording: &mut RecordedRequests<'_>, name: &str, query: Query<'a>) {
    recording.compare(name, &QueryRequest { root: ROOT, query });
}

/// Compares the query for what changed after this clock.
fn compare_changes(recording: &mut RecordedRequests<'_>, name: &str, clock: &str) {
    let since = Some(Moment::Clock(clock));
    compare(
        recording,
        name,
        Query {
            since,
            ..all_files()
        },
    );
}

/// The first query, and the subscription.
pub fn compare_first(recording: &mut RecordedRequests<'_>) {
    compare(recording, "query-fresh", all_files());
    recording.compare(
        "subscribe",
        &SubscribeRequest::new(ROOT, "changes", all_files()),
    );
}

/// Queries for changes, and by names.
pub fn compare_names(recording: &mut RecordedRequests<'_>) {
    compare_changes(recording, "query-since", "c:1795768208:28022:1:2");
    compare_changes(recording, "query-since-nothing", "c:1795768208:28022:1:41");
    let sources = Query {
        expression: Some(Expression::Match(Match {
            pattern: "src/**",
            scope: Some(Scope::Wholename),
            flags: None,
        })),
        fields: Some(&["name"]),
        ..Query::new()
    };
    compare(recording, "query-names", sources);
    let no_fields = Query {
        fields: Some(&[]),
        ..sources
    };
    compare(recording, "query-empty-fields", no_fields);
    let names = [Bytes(b"latin-\xe9.txt"), Bytes(b"new-\xff\xfe.bin")];
    let by_names = Query {
        expression: Some(Expression::Name(Name {
            names: Names::Several(&names),
            scope: Some(Scope::Wholename),
        })),
        fields: Some(&["name", "size", "exists"]),
        ..Query::new()
    };
    compare(recording, "query-byte-name", by_names);
    let by_name = Query {
        expression: Some(Expression::Name(Name {
            names: Names::One(Bytes(b"nothing has this name")),
            scope: None,
        })),
        ..all_files()
    };
    compare(recording, "query-no-rows", by_name);
}

/// Queries that the server answers with an error.
pub fn compare_errors(recording: &mut RecordedRequests<'_>) {
    let above = QueryRequest {
        root: Bytes(b"/data/my"),
        query: all_files(),
    };
    recording.compare("error-not-watched", &above);
    let elsewhere = QueryRequest {
        root: Bytes(b"/data/my/project-elsewhere"),
        ..above
    };
    recording.compare("error-no-root", &elsewhere);
    let wrong_field = Query {
        fields: Some(&["name", "no-such-field"]),
        ..all_files()
    };
    compare(recording, "error-field", wrong_field);
}

/// The query behind the subscription's end, and what the second connection sends.
pub fn compare_last(recording: &mut RecordedRequests<'_>) {
    compare_changes(
        recording,
        "query-since-unsubscribed",
        "c:1795768208:28022:1:79",
    );
    recording.compare("watch-project again", &WatchProjectRequest { path: ROOT });
    compare_changes(recording, "query-old-clock", "c:1795768208:28022:1:2");
    compare_changes(recording, "query-new-clock", "c:1795768235:31677:1:4");
}

/// The query and the subscription that pywatchman wrote behind the session: the files that neither
/// end in `.c` nor are named `Makefile`, and changes that are deferred in one state and dropped in
/// two.
pub fn compare_written(recording: &mut RecordedRequests<'_>) {
    let makefile = Name {
        names: Names::One(Bytes(b"Makefile")),
        scope: Some(Scope::Wholename),
    };
    let either = [Expression::Suffix("c"), Expression::Name(makefile)];
    let any = Expression::AnyOf(&either);
    compare(recording, "query-neither", names_of(Expression::Not(&any)));
    let names = Query {
        fields: Some(NAME_ALONE),
        ..all_files()
    };
    let quiet = SubscribeRequest {
        defer: Some(&["build"]),
        drop: Some(&["hg.update", "deploy"]),
        ..SubscribeRequest::new(ROOT, "quiet", names)
    };
    recording.compare("subscribe-quietly", &quiet);
}

/// A query for the names of these files.
pub fn names_of<'a>(expression: Expression<'a>) -> Query<'a> {
    Query {
        expression: Some(expression),
        fields: Some(NAME_ALONE),
        ..Query::new()
    }
}
