//! Streams of messages of which some are broken, over a reader that keeps how far it was asked.
mod asked;
mod interrupted;
mod lines;
mod reads;

use crate::tests::frames::asked::AskedReader;
use bser_vectors::devices::Plan;
use serde_bser::de::Limits;
use serde_bser::device::{Source, Watched};
use serde_bser::stream::{FrameError, Frames};
use serde_bser::value::Value;
use std::alloc::{AllocError, Global};
use std::process::Abort;

/// Messages as bytes, from a reader that keeps how far it was asked.
type AskedFrames<'a> = Frames<Watched<AskedReader<'a>>>;

/// The messages of these bytes, whose bodies have at most `most` bytes.
fn frames_of<'a>(alloc: Global, most: usize, bytes: &'a [u8], plan: Plan) -> AskedFrames<'a> {
    let limits = Limits {
        levels: 128,
        bytes: most,
    };
    Frames::with_limits(alloc, limits, Watched::new(AskedReader::new(bytes, plan)))
}

/// What is read from the frame.
fn read_text<S: Source>(alloc: Global, frames: &Frames<S>) -> Result<String, AllocError> {
    match frames.read::<Value>() {
        Ok(value) => format!(in alloc; "{value}"),
        Err(error) => format!(in alloc; "{error}"),
    }
}

/// What a call answered.
fn answer_text<S: Source>(
    alloc: Global,
    frames: &Frames<S>,
    answer: &Result<bool, FrameError>,
) -> Result<String, AllocError> {
    match answer {
        Ok(true) => read_text(alloc, frames),
        Ok(false) => String::from_str(alloc, "the end"),
        Err(error) => format!(in alloc; "{error}"),
    }
}

/// Where the frame begins, how many bytes it has, how far the reader was asked, and what a call
/// answered.
fn line_of(
    rt: &impl Abort,
    alloc: Global,
    frames: &AskedFrames<'_>,
    answer: &Result<bool, FrameError>,
) -> String {
    let text = answer_text(alloc, frames, answer).expect(rt, "memory is left");
    let asked = frames.get_ref().get_ref().asked();
    let place = frames.position();
    let len = frames.frame().len();
    format!(in alloc; "{place}+{len}, asked {asked}: {text}").expect(rt, "memory is left")
}

/// Checks what the next calls answer.
fn check_lines(rt: &impl Abort, alloc: Global, frames: &mut AskedFrames<'_>, expected: &[&str]) {
    for line in expected {
        let answer = frames.next_frame();
        assert_eq!(rt; line_of(rt, alloc, frames, &answer).as_str(), *line);
    }
}
