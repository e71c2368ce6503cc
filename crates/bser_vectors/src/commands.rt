//! Sessions of a program that is run in memory, as in a shell.
use crate::devices::{Plan, Then};
use anyhow::Result;
use std::fs;
use std::io::ErrorKind;

/// What a run of a program left.
#[derive(Drop)]
pub struct CommandRun {
    /// The status.
    pub status: u8,
    /// What was written to standard output.
    pub output: Vec<u8>,
    /// What was written to standard error.
    pub errors: Vec<u8>,
}

/// How the output of a command is printed.
#[derive(Clone, Copy)]
enum OutputForm {
    Text,
    /// With a newline behind it.
    Line,
    /// With a newline in the place of each NUL.
    Lines,
    /// In hexadecimal.
    Hex,
}

/// A line of a session.
#[derive(Clone, Copy)]
pub struct CommandLine<'a> {
    /// The words behind the program's name, with a space between them.
    pub words: &'a str,
    /// How the output is taken.
    pub plan: Plan,
    file: Option<&'a str>,
    form: OutputForm,
}

impl<'a> CommandLine<'a> {
    /// Takes a line apart that has these words behind the program's name. `< FILE` may follow for
    /// what is read, and at the end `| od -An -tx1` for an output in hexadecimal,
    /// `| tr '\0' '\n'` for one with newlines in the place of NULs, `| head -c N` for one that is
    /// closed behind N bytes, or `> /dev/full` for one that fails.
    pub fn parse(line: &'a str) -> Self {
        let whole = Plan::whole();
        let (front, plan, form) = if let Some(front) = line.strip_suffix(" | od -An -tx1") {
            (front, whole, OutputForm::Hex)
        } else if let Some(front) = line.strip_suffix(" | tr '\\0' '\\n'") {
            (front, whole, OutputForm::Lines)
        } else if let Some(front) = line.strip_suffix(" > /dev/full") {
            let full = Then::Faults(ErrorKind::StorageFull);
            (front, whole.up_to(0, full), OutputForm::Text)
        } else if let Some((front, count)) = line.split_once(" | head -c ") {
            (
                front,
                closed_behind(count.parse().unwrap_or(0)),
                OutputForm::Line,
            )
        } else {
            (line, whole, OutputForm::Text)
        };
        let (words, file) = match front.split_once(" < ") {
            Some((words, file)) => (words, Some(file)),
            None => (front, None),
        };
        CommandLine {
            words,
            plan,
            file,
            form,
        }
    }

    /// What the command reads.
    pub fn input(&self, rt: &HostRuntime) -> Result<Vec<u8>> {
        match self.file {
            Some(file) => Ok(fs::read(rt, file)?),
            None => Ok(Vec::new(rt.alloc())),
        }
    }

    /// Prints what a run of the command left: its output, its errors, and the status where that is
    /// not 0.
    pub fn print_run(&self, rt: &HostRuntime, mut run: CommandRun) -> Result<()> {
        if let OutputForm::Lines = self.form {
            for byte in &mut run.output {
                if *byte == 0 {
                    *byte = b'\n';
                }
            }
        }
        let output = String::from_utf8_lossy(rt.alloc(), &run.output)?;
        match self.form {
            OutputForm::Hex => print_hex(rt, &run.output)?,
            OutputForm::Line => println!(rt; "{output}")?,
            OutputForm::Text | OutputForm::Lines => print!(rt; "{output}")?,
        }
        print!(rt; "{}", String::from_utf8_lossy(rt.alloc(), &run.errors)?)?;
        if run.status != 0 {
            println!(rt; "status {}", run.status)?;
        }
        Ok(())
    }
}

/// Prints the bytes in hexadecimal, 16 a line.
fn print_hex(rt: &HostRuntime, bytes: &[u8]) -> Result<()> {
    for row in bytes.chunks(16) {
        for byte in row {
            print!(rt; " {byte:02x}")?;
        }
        println!(rt;)?;
    }
    Ok(())
}

/// How an output is taken that is closed behind so many bytes.
pub fn closed_behind(bytes: usize) -> Plan {
    Plan::whole().up_to(bytes, Then::Faults(ErrorKind::BrokenPipe))
}
