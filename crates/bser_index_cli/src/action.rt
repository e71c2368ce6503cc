//! What the words of a command ask for.

use crate::changes::Since;
use crate::filter::Filter;
use crate::printing::{RecordForm, Shown};
use crate::questions::Which;
use crate::waiting::Awaited;
use crate::wish::Wish;
use clap::ArgMatches;
use index_following::request::{Asked, RequestForm};
use watchman_sqlite::opening::PATIENCE;

/// What is done with an index.
#[derive(Debug, Clone, Copy)]
pub(crate) enum Action<'a> {
    /// It is made.
    Init(Wish<'a>),
    /// The request whose answer comes next is printed.
    Request(Asked<'a>, RequestForm),
    /// The messages of files are added.
    Add(Manner),
    /// The messages of a server are added, which is asked for them.
    Follow(Manner),
    /// It is waited until a file has changed.
    Wait(Awaited<'a>),
    /// What changed is printed.
    Changes(Since<'a>, Shown<'a>),
    /// What nobody asks for is removed who asks since this clock.
    Prune(&'a str),
    /// The index is compared with messages.
    Verify,
    /// A question is answered.
    Ask(Question<'a>),
}

/// How messages are added.
#[derive(Debug, Clone, Copy)]
pub(crate) struct Manner {
    /// Whether a message that says that there are no files is taken.
    pub(crate) may_be_empty: bool,
    /// Whether the messages were recorded.
    pub(crate) are_recorded: bool,
    /// For how many seconds another program is waited for that has the index open.
    pub(crate) seconds: u64,
}

/// What an index is asked, and which files are printed in which form.
#[derive(Debug, Clone, Copy)]
pub(crate) enum Question<'a> {
    /// The last clock.
    Clock,
    /// Which files there are.
    List(Which<'a>, Shown<'a>),
    /// What is known of the file with this name.
    Stat(&'a str, Shown<'a>),
    /// What is known of the files whose names are on standard input.
    StatNames(Shown<'a>),
}

/// What the words of a command ask for. `None` for a name that is no command's.
pub(crate) fn action_of<'a>(name: &str, matches: &ArgMatches<'a>) -> Option<Action<'a>> {
    match name {
        "init" => Some(Action::Init(wish_of(matches)?)),
        "request" => Some(Action::Request(asked_of(matches), request_form_of(matches))),
        "add" => Some(Action::Add(manner_of(matches, matches.get_flag("recording")))),
        "follow" => Some(Action::Follow(manner_of(matches, false))),
        "wait" => Some(Action::Wait(Awaited {
            since: since_of(matches),
            seconds: matches.get_one("timeout"),
        })),
        "changes" => Some(Action::Changes(since_of(matches)?, shown_of(matches))),
        "prune" => Some(Action::Prune(matches.get_str("before")?)),
        "verify" => Some(Action::Verify),
        _ => Some(Action::Ask(question_of(name, matches)?)),
    }
}

/// What an index is to be of.
fn wish_of<'a>(matches: &ArgMatches<'a>) -> Option<Wish<'a>> {
    Some(Wish {
        root: matches.get_str("root")?,
        relative_root: matches.get_str("relative-root"),
        expression: matches.get_str("expression"),
    })
}

/// What a request asks for.
fn asked_of<'a>(matches: &ArgMatches<'a>) -> Asked<'a> {
    if matches.contains_id("subscribe") {
        Asked::Subscription(matches.get_str("subscribe").filter(|name| !name.is_empty()))
    } else {
        Asked::Query
    }
}

/// How a request is printed.
fn request_form_of(matches: &ArgMatches<'_>) -> RequestForm {
    if matches.get_flag("bser") {
        RequestForm::Bser
    } else {
        RequestForm::Json
    }
}

/// How messages are added.
fn manner_of(matches: &ArgMatches<'_>, are_recorded: bool) -> Manner {
    Manner {
        may_be_empty: matches.get_flag("empty"),
        are_recorded,
        seconds: matches.get_one("wait").unwrap_or(PATIENCE),
    }
}

/// Since when changes are asked for, where the words say it.
fn since_of<'a>(matches: &ArgMatches<'a>) -> Option<Since<'a>> {
    match matches.get_str("cursor") {
        Some(name) => Some(Since::Cursor(name)),
        None => Some(Since::Clock(matches.get_str("since")?)),
    }
}

/// What an index is asked. `None` for a name that is no command's.
fn question_of<'a>(name: &str, matches: &ArgMatches<'a>) -> Option<Question<'a>> {
    match name {
        "clock" => Some(Question::Clock),
        "list" => Some(Question::List(which_of(matches), shown_of(matches))),
        "stat" if matches.get_flag("names") => Some(Question::StatNames(shown_of(matches))),
        "stat" => Some(Question::Stat(matches.get_str("PATH")?, shown_of(matches))),
        _ => None,
    }
}

/// Which files the words ask for.
fn which_of<'a>(matches: &ArgMatches<'a>) -> Which<'a> {
    match matches.get_str("suffix") {
        Some(suffix) => Which::Suffix(suffix),
        None if matches.get_flag("all") => Which::All,
        None => Which::Present,
    }
}

/// Which of the files that are found are printed, and how.
fn shown_of<'a>(matches: &ArgMatches<'a>) -> Shown<'a> {
    let under = matches
        .get_str("under")
        .map(|path| path.trim_end_matches('/'));
    Shown {
        filter: Filter {
            under,
            kind: matches.get_str("type"),
        },
        form: form_of(matches),
    }
}

/// In which form the words ask for files.
fn form_of(matches: &ArgMatches<'_>) -> RecordForm {
    if matches.get_flag("json") {
        RecordForm::Json
    } else if matches.get_flag("z") {
        RecordForm::Names
    } else {
        RecordForm::Lines
    }
}
