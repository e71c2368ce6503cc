//! Runs the commands of `bser` and of `bser_index` in memory: a session on standard input, whose output
//! is printed, and then on messages whose answers were made elsewhere, of which is printed how many
//! agree.
//!
//! `messages.tsv` has recorded messages with their JSON, and `wrong-messages.tsv` such lines of which
//! each is wrong, and is named; `scripts/command_table` makes the first. What `{}` prints of a message is
//! compared with its JSON, of some files too. `refused.tsv` has messages that are malformed, with what
//! has to be reported of them and where, and `wrong-refused.tsv` wrong lines. A message is cut behind
//! each of its bytes. Of files that come byte by byte is compared what is written before each read. Then
//! commands are run to an output that takes nothing, and on a short message whose value is long. At last
//! the messages of a recorded session are added to an index, which is compared after each with tables
//! that were folded elsewhere.
#![tactic(auto)]

mod amplifying;
mod changes;
mod commands;
mod expected;
mod frames;
mod message;
mod printed;
mod refusal;
mod run;
mod session;
mod untaken;
mod waiting;

use crate::amplifying::print_amplifying;
use crate::commands::COMMANDS;
use crate::frames::compare_frames;
use crate::message::compare_messages;
use crate::printed::compare_printed;
use crate::refusal::{compare_cuts, compare_refusals};
use crate::run::print_session;
use crate::session::compare_session;
use crate::untaken::print_untaken;
use crate::waiting::compare_waits;
use anyhow::Result;

fn main(rt: HostRuntime) -> Result<()> {
    print_session(&rt)?;
    compare_messages(&rt, "messages.tsv")?;
    compare_messages(&rt, "wrong-messages.tsv")?;
    compare_printed(
        &rt,
        &["reals.bser", "dollar.bser", "odd-names.bser", "nul.bser"],
    )?;
    compare_refusals(&rt, "refused.tsv")?;
    compare_refusals(&rt, "wrong-refused.tsv")?;
    compare_frames(&rt, "refused.tsv")?;
    compare_cuts(&rt, "watchman/070-s-query-one-row.bser")?;
    compare_waits(&rt, &COMMANDS, "rows.bser")?;
    compare_waits(
        &rt,
        &[&["show", "--keep-going"], &["json", "--keep-going"]],
        "three.bser",
    )?;
    compare_waits(&rt, &[&["from-json"]], "texts.json")?;
    print_untaken(&rt, "one-row.bser")?;
    print_amplifying(&rt)?;
    compare_session(&rt)
}
