//! The words that the program knows.

use clap::{Arg, ArgAction, Command, value_parser};
use std::alloc::{AllocError, Global};

/// What stands behind the list of commands.
const AFTER_HELP: &str =
    "The status is 0; or 1 where not all was done: a message is refused, or tells an error of the server,
or something is missing before it, a subscription ended, a file or clock is not known, a difference
is found, the index cannot be used, or the output fails; or 2 for unknown arguments, and where the
time of `wait` is over.";

/// What `follow --help` says.
const FOLLOW: &str =
    "Ask a server what changed since the last clock, and then follow its changes. Requests go to
standard output and answers come from standard input, as socat joins both with the server:

  socat UNIX-CONNECT:\"$(watchman get-sockname | jq -r .sockname)\" \\
    EXEC:\"bser_index follow INDEX\",nofork

Where something is missing before a message, it asks again. It ends with the status 1 where the
server ends the stream or the subscription, or tells an error, and says so on standard error.";

/// The version of the library.
const VERSION: &str = "1.0.0";

/// Watchman's letters for the types of files.
const TYPES: &[&str] = &["f", "d", "l", "b", "c", "p", "s", "D", "?"];

/// The program's commands, each with its options.
pub(crate) fn command<'a>(alloc: Global) -> Result<Command<'a>, AllocError> {
    Command::new(alloc, "bser_index")
        .version(VERSION)
        .about("Keeps a SQLite file of what Watchman tells of the files below a root")
        .after_help(AFTER_HELP)
        .subcommand_required(true)
        .subcommand(init(alloc)?)?
        .subcommand(follow(alloc)?)?
        .subcommand(request(alloc)?)?
        .subcommand(add(alloc)?)?
        .subcommand(wait(alloc)?)?
        .subcommand(clock(alloc)?)?
        .subcommand(changes(alloc)?)?
        .subcommand(list(alloc)?)?
        .subcommand(stat(alloc)?)?
        .subcommand(verify(alloc)?)?
        .subcommand(prune(alloc)?)
}

fn init<'a>(alloc: Global) -> Result<Command<'a>, AllocError> {
    let root = option(alloc, "root", "ROOT", "The root that the server watches").required(true);
    let relative_root = option(
        alloc,
        "relative-root",
        "PATH",
        "The folder below the root that names are relative to",
    );
    let expression = option(
        alloc,
        "expression",
        "JSON",
        "Which files are asked for, by their names alone, as '[\"suffix\",\"c\"]'; all, without it",
    );
    let field = option(
        alloc,
        "field",
        "NAME",
        "A field to be asked for beside name and exists: size, mode, type or mtime_ms; all, without it",
    )
    .action(ArgAction::Append);
    Command::new(alloc, "init")
        .about("Make an index that knows what to ask for")
        .arg(root)?
        .arg(relative_root)?
        .arg(expression)?
        .arg(field)?
        .arg(index(alloc))
}

fn follow<'a>(alloc: Global) -> Result<Command<'a>, AllocError> {
    Command::new(alloc, "follow")
        .about("Ask a server what changed, and follow its changes, by standard input and output")
        .long_about(FOLLOW)
        .arg(empty(alloc))?
        .arg(patience(alloc))?
        .arg(index(alloc))
}

fn request<'a>(alloc: Global) -> Result<Command<'a>, AllocError> {
    let subscribe = option(
        alloc,
        "subscribe",
        "NAME",
        "Ask for a subscription, by this name",
    )
    .num_args(0..=1)
    .require_equals(true)
    .default_missing_value("");
    let bser = flag(
        alloc,
        "bser",
        "Print it as BSER, for the socket of a server",
    );
    Command::new(alloc, "request")
        .about("Print the request whose answer comes next, as a line of JSON for watchman -j")
        .arg(subscribe)?
        .arg(bser)?
        .arg(index(alloc))
}

fn add<'a>(alloc: Global) -> Result<Command<'a>, AllocError> {
    let recording = flag(
        alloc,
        "recording",
        "Take the messages of a subscription as a recording, which may end",
    );
    Command::new(alloc, "add")
        .about("Add the messages of a server to an index, each all of it or nothing")
        .arg(empty(alloc))?
        .arg(recording)?
        .arg(patience(alloc))?
        .arg(index(alloc))?
        .arg(files(alloc))
}

fn wait<'a>(alloc: Global) -> Result<Command<'a>, AllocError> {
    let since = option(
        alloc,
        "since",
        "CLOCK",
        "A clock that a message told; from now on, without it",
    )
    .conflicts_with("cursor")?;
    let timeout = option(
        alloc,
        "timeout",
        "SECONDS",
        "For how long it waits; without it, until a file has changed",
    )
    .value_parser(value_parser!(u64));
    Command::new(alloc, "wait")
        .about("Wait until a file has changed: status 0, or 2 where the time is over")
        .arg(since)?
        .arg(cursor(alloc))?
        .arg(timeout)?
        .arg(index(alloc))
}

fn clock<'a>(alloc: Global) -> Result<Command<'a>, AllocError> {
    Command::new(alloc, "clock")
        .about("Print the last clock")
        .arg(index(alloc))
}

fn changes<'a>(alloc: Global) -> Result<Command<'a>, AllocError> {
    let since = option(alloc, "since", "CLOCK", "A clock that a message told")
        .required_unless_present("cursor")?
        .conflicts_with("cursor")?;
    Command::new(alloc, "changes")
        .about(
            "Print the last clock, and the files that changed after a clock or since the last time",
        )
        .arg(since)?
        .arg(cursor(alloc))?
        .arg(under(alloc))?
        .arg(of_type(alloc))?
        .arg(json(alloc)?)?
        .arg(names_alone(alloc))?
        .arg(index(alloc))
}

fn list<'a>(alloc: Global) -> Result<Command<'a>, AllocError> {
    let suffix = option(
        alloc,
        "suffix",
        "SUFFIX",
        "Print the files with this suffix alone, in letters of either case",
    );
    let all = flag(alloc, "all", "Print those that were deleted too").conflicts_with("suffix")?;
    Command::new(alloc, "list")
        .about("Print the files that exist")
        .arg(all)?
        .arg(suffix)?
        .arg(under(alloc))?
        .arg(of_type(alloc))?
        .arg(json(alloc)?)?
        .arg(names_alone(alloc))?
        .arg(index(alloc))
}

fn stat<'a>(alloc: Global) -> Result<Command<'a>, AllocError> {
    let path = Arg::new(alloc, "PATH")
        .required_unless_present("names")?
        .conflicts_with("names")?
        .action(ArgAction::Set)
        .help("The path of a file, from the root or the relative root on");
    let names = flag(
        alloc,
        "names",
        "Read paths from standard input, each ended by a NUL",
    );
    Command::new(alloc, "stat")
        .about("Print what is known of a file")
        .arg(names)?
        .arg(json(alloc)?)?
        .arg(names_alone(alloc))?
        .arg(index(alloc))?
        .arg(path)
}

fn verify<'a>(alloc: Global) -> Result<Command<'a>, AllocError> {
    Command::new(alloc, "verify")
        .about("Compare an index with the messages that were added to it")
        .arg(index(alloc))?
        .arg(files(alloc))
}

fn prune<'a>(alloc: Global) -> Result<Command<'a>, AllocError> {
    let before = option(alloc, "before", "CLOCK", "A clock that a message told").required(true);
    Command::new(alloc, "prune")
        .about("Remove what nobody needs who asks for changes since a clock or a later one")
        .arg(before)?
        .arg(index(alloc))
}

fn cursor<'a>(alloc: Global) -> Arg<'a> {
    option(
        alloc,
        "cursor",
        "NAME",
        "A name for which the index keeps what `changes` printed last",
    )
}

fn under<'a>(alloc: Global) -> Arg<'a> {
    option(
        alloc,
        "under",
        "PATH",
        "Print this folder and the files below it alone",
    )
}

fn of_type<'a>(alloc: Global) -> Arg<'a> {
    option(
        alloc,
        "type",
        "LETTER",
        "Print the files of this type alone, as f, d or l for a file, a folder or a link",
    )
    .value_parser(TYPES)
}

fn empty<'a>(alloc: Global) -> Arg<'a> {
    flag(
        alloc,
        "empty",
        "Take an answer that says that the folder has no files",
    )
}

fn patience<'a>(alloc: Global) -> Arg<'a> {
    option(
        alloc,
        "wait",
        "SECONDS",
        "For how long another program is waited for that has the index open; 60, without it",
    )
    .value_parser(value_parser!(u64))
}

fn json<'a>(alloc: Global) -> Result<Arg<'a>, AllocError> {
    flag(alloc, "json", "Print a line of JSON for each file").conflicts_with("z")
}

fn names_alone<'a>(alloc: Global) -> Arg<'a> {
    Arg::new(alloc, "z")
        .short('z')
        .action(ArgAction::SetTrue)
        .help("Print the name of each file alone, ended by a NUL")
}

fn flag<'a>(alloc: Global, name: &'a str, help: &'a str) -> Arg<'a> {
    Arg::new(alloc, name)
        .long(name)
        .action(ArgAction::SetTrue)
        .help(help)
}

fn option<'a>(alloc: Global, name: &'a str, value: &'a str, help: &'a str) -> Arg<'a> {
    Arg::new(alloc, name)
        .long(name)
        .value_name(value)
        .action(ArgAction::Set)
        .help(help)
}

fn index<'a>(alloc: Global) -> Arg<'a> {
    Arg::new(alloc, "INDEX")
        .required(true)
        .action(ArgAction::Set)
        .help("The file of the index")
}

fn files<'a>(alloc: Global) -> Arg<'a> {
    Arg::new(alloc, "FILE")
        .action(ArgAction::Append)
        .num_args(0..)
        .help("Files of messages, and - for standard input, which is read where none is named")
}
