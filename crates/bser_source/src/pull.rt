//! Bytes from a reader to a buffer, and to a scratch.
ghost use Rattle.std.specs.Prelude.{◌≡◌, ◌≤◌, ◌<◌, ◌+◌, ◌-◌, max, length, drop, take, IfOk, IfErr, OnOk};
ghost use Rattle.std.specs.Io.KnownBytes.{Consumes, IsAtEnd};
ghost use Rattle.bser_source.specs.declared.pull.TheConstants.{STEP};
ghost use Rattle.bser_source.specs.Device.{PullCounts};
ghost use Rattle.bser_source.specs.Failures.{FillRefused};
ghost use Rattle.bser_source.specs.Pull.{Reads};

use crate::device::Source;
use bser_format::errors::ReadCause;
use std::io;

/// Reads some of `want` bytes to place `at` on.
pub(crate) fn pull_at<S: Source>(
    reader: &mut S,
    buf: &mut [u8],
    at: usize,
    want: usize,
) -> io::Result<usize>
    requires some { 0 < want }
    requires room { at + want ≤ length buf.old }
    ensures front { take at buf.new ≡ take at buf.old }
    ensures fits { IfOk result (λ n. n ≤ want) }
    ensures ok { IfOk result (λ n.
        Consumes (S.remaining reader.old) (S.remaining reader.new) (take n (drop at buf.new))) }
    ensures end { IfOk result (λ n. n ≡ 0 → IsAtEnd (S.remaining reader.new)) }
    ensures failures { PullCounts (S.failures reader.old) (S.failures reader.new) result }
    ensures through { S.through reader.new ≡ S.through reader.old }
{
    reader.pull(&mut buf[at..at + want])
}

/// How far a scratch is grown ahead of what arrived.
const STEP: usize = 65_536;

/// Has room in the scratch past its first `filled` bytes, and for `len` bytes at most.
fn make_room(scratch: &mut Vec<u8>, filled: usize, len: usize) -> Result<(), ReadCause>
    requires within { filled ≤ length scratch.old.items }
    requires fits { length scratch.old.items ≤ len }
    requires short { filled < len }
    ensures kept { OnOk result (take filled scratch.new.items ≡ take filled scratch.old.items) }
    ensures room { OnOk result (filled < length scratch.new.items) }
    ensures fits { OnOk result (length scratch.new.items ≤ len) }
    ensures ahead { length scratch.new.items ≤ max (length scratch.old.items) (filled + STEP) }
    ensures err { IfErr result (λ e. e ≡ ReadCause.Memory) }
{
    if filled < scratch.len() {
        return Ok(());
    }
    let step = STEP.min(len - filled);
    if scratch.resize(filled + step, 0).is_err() {
        return Err(ReadCause::Memory);
    }
    Ok(())
}

/// Adds to `scratch` what the reader gives, until it has `len` bytes.
pub(crate) fn pull_rest<S: Source>(
    reader: &mut S,
    scratch: &mut Vec<u8>,
    len: usize,
) -> Result<(), ReadCause>
    requires { length scratch.old.items ≤ len }
    ensures length { OnOk result (length scratch.new.items ≡ len) }
    ensures ok { OnOk result (Reads
        (S.remaining reader.old) (S.remaining reader.new) scratch.old.items scratch.new.items) }
    ensures kept { OnOk result (S.failures reader.new ≡ S.failures reader.old) }
    ensures through { S.through reader.new ≡ S.through reader.old }
    ensures err { IfErr result (λ e. FillRefused e (S.remaining reader.old)
        (S.failures reader.old) (S.failures reader.new) (len - length scratch.old.items)) }
{
    let mut filled = scratch.len();
    while filled < len {
        make_room(scratch, filled, len)?;
        let room = scratch.len() - filled;
        match pull_at(reader, scratch.as_mut_slice(), filled, room) {
            Ok(0) => return Err(ReadCause::Eof),
            Ok(n) => filled += n,
            Err(fault) => return Err(ReadCause::Reader(fault)),
        }
    }
    Ok(())
}
