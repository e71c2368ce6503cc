//! Bytes that are pushed until a writer took them all.
ghost use Rattle.std.specs.Prelude.{◌≡◌, OnOk, OnErr, IfErr};
ghost use Rattle.bser_format.specs.declared.errors.Error.TheVariants.{Io};
ghost use Rattle.bser_ser.specs.Stopped.{Accounts, Takes, TookFront};

use bser_source::device::Sink;
use std::io;
use std::io::ErrorKind;

/// Pushes all bytes to the writer.
///
/// The error is the writer's own, or of kind `WriteZero` where it took nothing. Where none is
/// answered, no failure was counted, and else one.
pub fn push_all<W: Sink>(writer: &mut W, bytes: &[u8]) -> io::Result<()>
    ensures ok { OnOk result (Takes W.Sink writer.old writer.new bytes.now) }
    ensures front { OnErr result (TookFront W.Sink writer.old writer.new bytes.now) }
    ensures err { IfErr result (λ e. Accounts W.Sink writer.old writer.new bytes.now (Io e)) }
{
    let mut done = 0;
    while done < bytes.len() {
        match writer.push(&bytes[done..]) {
            Ok(n) => {
                if n == 0 {
                    return Err(io::Error::new(ErrorKind::WriteZero, "nothing taken"));
                }
                done += n;
            }
            Err(fault) => return Err(fault),
        }
    }
    Ok(())
}
