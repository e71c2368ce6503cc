//! Requests that are no queries.
use crate::requests::queries::{ROOT, all_files, compare};
use crate::requests::recording::RecordedRequests;
use serde_bser::bytestring::ByteString;
use serde_bser::errors::Result;
use serde_bser::value::Value;
use std::alloc::Global;
use std::collections::BTreeMap;
use watchman_types::requests::{
    Capabilities, ClockRequest, FlushSubscriptionsRequest, Level, LogLevelRequest, LogRequest,
    StateEnterRequest, StateLeaveRequest, UnsubscribeRequest, VersionRequest, WatchProjectRequest,
};

/// The requests with which the session begins.
pub fn compare_first(recording: &mut RecordedRequests<'_>) {
    let capabilities = Capabilities {
        optional: &[
            "relative_root",
            "term-dirname",
            "bser-v2",
            "scm-git",
            "template",
            "no-such-capability",
        ],
        required: &["cmd-subscribe", "cmd-state-enter", "field-mtime_ms"],
    };
    let capabilities = Some(capabilities);
    recording.compare("version", &VersionRequest { capabilities });
    recording.compare("watch-project", &WatchProjectRequest { path: ROOT });
    recording.compare(
        "clock",
        &ClockRequest {
            root: ROOT,
            sync_timeout: None,
        },
    );
}

/// A state that is entered and left.
pub fn compare_states(rt: &HostRuntime, recording: &mut RecordedRequests<'_>) {
    let entered = StateEnterRequest {
        root: ROOT,
        name: "build",
        metadata: build_metadata(rt.alloc()).ok(),
    };
    recording.compare("state-enter", &entered);
    let left = StateLeaveRequest {
        root: ROOT,
        name: "build",
        metadata: is_built(rt.alloc()).ok(),
    };
    recording.compare("state-leave", &left);
}

/// The metadata of the state that is entered.
fn build_metadata(alloc: Global) -> Result<Value> {
    let numbers = [1, 200, 70_000, 1_099_511_627_776, -1];
    let mut counts = Vec::new(alloc);
    for number in numbers {
        counts.push(Value::Integer(number))?;
    }
    counts.push(Value::Null)?;
    counts.push(Value::Bool(true))?;
    let raw = ByteString::from_vec(vec![in alloc; 0xff, 0x00]?);
    let mut entries = BTreeMap::new(alloc);
    entries.insert(
        String::from_str(alloc, "target")?,
        Value::from_text(alloc, "café")?,
    )?;
    entries.insert(String::from_str(alloc, "raw")?, Value::ByteString(raw))?;
    entries.insert(String::from_str(alloc, "counts")?, Value::Array(counts))?;
    Ok(Value::Object(entries))
}

/// The metadata of the state that is left.
fn is_built(alloc: Global) -> Result<BTreeMap<String, bool>> {
    let mut entries = BTreeMap::new(alloc);
    entries.insert(String::from_str(alloc, "ok")?, false)?;
    Ok(entries)
}

/// Requests that are about the log.
pub fn compare_log(recording: &mut RecordedRequests<'_>) {
    let level = Level::Error;
    recording.compare("log-level", &LogLevelRequest { level });
    let line = "a line with \"quotes\" and café";
    recording.compare("log", &LogRequest { level, line });
    let level = Level::Off;
    recording.compare("log-level-off", &LogLevelRequest { level });
}

/// A command that the server does not know, and a capability that it lacks.
pub fn compare_errors(recording: &mut RecordedRequests<'_>) {
    recording.compare("error-command", &("no-such-command", ROOT));
    let capabilities = Some(Capabilities {
        optional: &[],
        required: &["no-such-capability"],
    });
    recording.compare("error-capability", &VersionRequest { capabilities });
}

/// The subscription's end, and what comes before it.
pub fn compare_subscriptions(recording: &mut RecordedRequests<'_>) {
    let flushed = FlushSubscriptionsRequest {
        root: ROOT,
        sync_timeout: 5000,
        subscriptions: None,
    };
    recording.compare("flush-subscriptions", &flushed);
    compare(recording, "query-after-touch", all_files());
    compare(recording, "query-unread", all_files());
    let ended = UnsubscribeRequest {
        root: ROOT,
        name: "changes",
    };
    recording.compare("unsubscribe", &ended);
}

/// The request for the version alone, and one that is meant to differ from it.
pub fn compare_versions(recording: &mut RecordedRequests<'_>) {
    recording.compare("version alone", &VersionRequest { capabilities: None });
    let capabilities = Some(Capabilities {
        optional: &[],
        required: &[],
    });
    recording.compare(
        "version with no capabilities",
        &VersionRequest { capabilities },
    );
}
