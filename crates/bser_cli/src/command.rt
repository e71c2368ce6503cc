//! The words that the program knows.

use clap::{Arg, ArgAction, Command};
use std::alloc::{AllocError, Global};

/// What stands behind the list of commands.
const AFTER_HELP: &str = "Each command reads the files that are named, or else standard input.
The status is 0; or 1 where a message is malformed, an input is empty or cannot be read, nothing is
found by `get`, or the output fails; or 2 for unknown arguments.";

/// What stands behind the arguments of `get`.
const AFTER_GET: &str =
    "Where nothing is at a pointer, a line on standard error says so, and the status is 1.
With --each it counts the items without a value, and the other values are printed.
With -z it is a failure too where a string has a NUL. It is left out, and with --each named.";

/// The version of the library.
const VERSION: &str = "1.0.0";

/// The program's commands, each with its options.
pub(crate) fn command<'a>(alloc: Global) -> Result<Command<'a>, AllocError> {
    Command::new(alloc, "bser")
        .about("Looks into BSER messages of version 2, and makes them")
        .version(VERSION)
        .after_help(AFTER_HELP)
        .subcommand_required(true)
        .subcommand(show(alloc)?)?
        .subcommand(json(alloc)?)?
        .subcommand(summary(alloc)?)?
        .subcommand(get(alloc)?)?
        .subcommand(canon(alloc)?)?
        .subcommand(from_json(alloc)?)
}

fn show<'a>(alloc: Global) -> Result<Command<'a>, AllocError> {
    let offsets = flag(
        alloc,
        "offsets",
        "Show where each part is, and not what it says",
    )
    .conflicts_with("values")?;
    Command::new(alloc, "show")
        .about("Show each message as a tree: offset, tag, bytes and value of each part")
        .arg(offsets)?
        .arg(flag(
            alloc,
            "values",
            "Show what each part says, and not where it is",
        ))?
        .arg(keep_going(alloc))?
        .arg(files(alloc))
}

fn json<'a>(alloc: Global) -> Result<Command<'a>, AllocError> {
    Command::new(alloc, "json")
        .about("Print each message as a line of JSON")
        .arg(pretty(alloc))?
        .arg(keep_going(alloc))?
        .arg(files(alloc))
}

fn summary<'a>(alloc: Global) -> Result<Command<'a>, AllocError> {
    Command::new(alloc, "summary")
        .about("Count the values of each message, and the bytes of each kind")
        .arg(keep_going(alloc))?
        .arg(files(alloc))
}

fn get<'a>(alloc: Global) -> Result<Command<'a>, AllocError> {
    let pointer = Arg::new(alloc, "POINTER")
        .required(true)
        .action(ArgAction::Set)
        .help("A JSON pointer, as /files/0/name, or '' for the whole value");
    let each = Arg::new(alloc, "each")
        .long("each")
        .value_name("CONTAINER")
        .action(ArgAction::Set)
        .help("For each item, row or member at this pointer, print the value at POINTER in it");
    let ends = Arg::new(alloc, "z")
        .short('z')
        .action(ArgAction::SetTrue)
        .help("As --raw, with a NUL behind each value in place of a newline");
    Command::new(alloc, "get")
        .about("Print one value of each message as JSON, or one of each item")
        .after_help(AFTER_GET)
        .arg(each)?
        .arg(flag(
            alloc,
            "raw",
            "Print a string as its bytes, and any other value as JSON",
        ))?
        .arg(ends)?
        .arg(pretty(alloc))?
        .arg(keep_going(alloc))?
        .arg(pointer)?
        .arg(files(alloc))
}

fn canon<'a>(alloc: Global) -> Result<Command<'a>, AllocError> {
    Command::new(alloc, "canon")
        .about("Write each message again in the canonical form")
        .arg(compact(alloc))?
        .arg(keep_going(alloc))?
        .arg(files(alloc))
}

fn from_json<'a>(alloc: Global) -> Result<Command<'a>, AllocError> {
    let bytes = flag(
        alloc,
        "bytes",
        "Write strings as byte strings, and not as texts",
    );
    Command::new(alloc, "from-json")
        .about("Write a message for each JSON text")
        .arg(compact(alloc))?
        .arg(bytes)?
        .arg(files(alloc))
}

fn compact<'a>(alloc: Global) -> Arg<'a> {
    flag(
        alloc,
        "compact",
        "Write the shortest messages, with templates",
    )
}

fn pretty<'a>(alloc: Global) -> Arg<'a> {
    flag(alloc, "pretty", "Print on several lines")
}

fn keep_going<'a>(alloc: Global) -> Arg<'a> {
    flag(
        alloc,
        "keep-going",
        "Go on behind a message that is malformed",
    )
}

fn flag<'a>(alloc: Global, name: &'a str, help: &'a str) -> Arg<'a> {
    Arg::new(alloc, name)
        .long(name)
        .action(ArgAction::SetTrue)
        .help(help)
}

fn files<'a>(alloc: Global) -> Arg<'a> {
    Arg::new(alloc, "FILE")
        .action(ArgAction::Append)
        .num_args(0..)
        .help("Files to read, and - for standard input")
}
