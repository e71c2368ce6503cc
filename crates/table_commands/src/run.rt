//! The programs `bser` and `bser_index`, run in memory.
use anyhow::{Result, ensure};
use bser_cli::program::Bser;
use bser_index_cli::program::BserIndex;
use bser_shell::program::{Program, run_program};
use bser_shell::screen::Terminals;
use bser_shell::streams::GivenStreams;
use bser_vectors::commands::{CommandLine, CommandRun};
use bser_vectors::devices::{Plan, PlannedWriter};
use std::alloc::Global;
use std::io;
use std::io::{Read, Write};

/// Runs the program of each line of standard input that begins with `$ bser ` or `$ bser_index `, and
/// prints the line and what the run left. Other lines are printed as they are.
pub fn print_session(rt: &HostRuntime) -> Result<()> {
    let list = io::read_to_string(rt.alloc(), rt.reader())?;
    for text in list.as_str().lines() {
        println!(rt; "{text}")?;
        if let Some(line) = text.strip_prefix("$ bser ") {
            print_line(rt, &Bser::new(rt.alloc(), rt), line)?;
        } else if let Some(line) = text.strip_prefix("$ bser_index ") {
            print_line(rt, &BserIndex::new(rt), line)?;
        }
    }
    Ok(())
}

/// Runs the program as a line of a session says, and prints what the run left.
fn print_line<P: Program>(rt: &HostRuntime, program: &P, text: &str) -> Result<()> {
    let line = CommandLine::parse(text);
    let words: Vec<&str> = line.words.split(' ').collect(rt.alloc())?;
    let run = run_planned(rt, program, &words, &line.input(rt)?, line.plan)?;
    line.print_run(rt, run)
}

/// Runs the program with these words behind its name, on this input. The output is taken by the plan.
fn run_planned<P: Program>(
    rt: &HostRuntime,
    program: &P,
    words: &[&str],
    input: &[u8],
    plan: Plan,
) -> Result<CommandRun> {
    let mut left = input;
    let mut output = PlannedWriter::new(rt.alloc(), plan);
    let mut errors = Vec::new(rt.alloc());
    let given = GivenStreams {
        input: &mut left,
        output: &mut output,
        errors: &mut errors,
        terminals: Terminals::NONE,
    };
    let status = run_with(rt.alloc(), program, words, given)?;
    Ok(CommandRun {
        status,
        output: output.taken,
        errors,
    })
}

/// Runs the program with these words behind its name on these streams, and answers its status.
fn run_with<P: Program, R: Read + Drop, W: Write + Drop, E: Write + Drop>(
    alloc: Global,
    program: &P,
    words: &[&str],
    given: GivenStreams<R, W, E>,
) -> Result<u8> {
    let mut all = vec![in alloc; String::from_str(alloc, program.name())?]?;
    for word in words {
        all.push(String::from_str(alloc, *word)?)?;
    }
    Ok(run_program(alloc, program, &all, given))
}

/// Runs `bser_index` with these words, with spaces between them, behind its name, on this input.
pub fn run_index(rt: &HostRuntime, words: &str, input: &[u8]) -> Result<CommandRun> {
    let words: Vec<&str> = words.split(' ').collect(rt.alloc())?;
    run_planned(rt, &BserIndex::new(rt), &words, input, Plan::whole())
}

/// Runs `bser` with these words behind its name, on this input. The output is taken by the plan.
fn run_command_to(
    rt: &HostRuntime,
    words: &[&str],
    input: &[u8],
    plan: Plan,
) -> Result<CommandRun> {
    run_planned(rt, &Bser::new(rt.alloc(), rt), words, input, plan)
}

/// Runs a command on a message, of whose output as much is taken as the plan says, and prints what it
/// left.
pub fn print_run(rt: &HostRuntime, words: &[&str; 1], message: &[u8], plan: Plan) -> Result<()> {
    let run = run_command_to(rt, words, message, plan)?;
    let output = String::from_utf8_lossy(rt.alloc(), &run.output)?;
    let errors = str::from_utf8(&run.errors)?;
    println!(rt;
        "{}: status {}, {output:?}, {errors:?}",
        words[0], run.status
    )?;
    Ok(())
}

/// Runs `bser` with these words behind its name on these streams, and answers its status.
pub fn run_on<R: Read, W: Write + Drop>(
    rt: &HostRuntime,
    words: &[&str],
    input: &mut R,
    output: W,
    errors: &mut Vec<u8>,
) -> Result<u8> {
    let given = GivenStreams {
        input,
        output,
        errors,
        terminals: Terminals::NONE,
    };
    run_with(rt.alloc(), &Bser::new(rt.alloc(), rt), words, given)
}

/// Runs `bser` with these words behind its name, on this input.
pub fn run_command(rt: &HostRuntime, words: &[&str], input: &[u8]) -> Result<CommandRun> {
    run_command_to(rt, words, input, Plan::whole())
}

/// The output of `bser` with these words behind its name, on this input. Fails where the status is
/// not 0, or something was reported.
pub fn output_of(rt: &HostRuntime, words: &[&str], input: &[u8]) -> Result<Vec<u8>> {
    let CommandRun {
        status,
        output,
        errors,
    } = run_command(rt, words, input)?;
    ensure!(status == 0 && errors.is_empty(), "another status than 0");
    Ok(output)
}
