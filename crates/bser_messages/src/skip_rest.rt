//! Going on after a message that was not reported whole.
ghost use Rattle.std.specs.Prelude.{◌≡◌, IfOk, IfErr};
ghost use Rattle.bser_messages.specs.Told.{SkipFails, Skips, rest_after};

use crate::told::TellError;
use bser_bunser::bunser::Bunser;
use bser_bunser::refusal::Refused;
use bser_format::errors::Result;
use bser_source::device::Source;
use bser_source::io_read::IoRead;
use std::alloc::Global;

impl TellError {
    /// Passes over what is left of the message in the reader that gave it, up to the end that the
    /// header announces. Returns whether the reader is there now.
    ///
    /// False where that end is not known, since the header was not taken, or where the reader had
    /// given bytes past it. Then nothing is read. A reader that ends before is
    /// [`ReadCause::Eof`](bser_format::errors::ReadCause::Eof), and its I/O error
    /// [`ReadCause::Reader`](bser_format::errors::ReadCause::Reader). It takes no memory.
    pub fn skip_rest<S: Source>(&self, alloc: Global, reader: &mut S) -> Result<bool>
        ensures skipped { IfOk result (Skips (rest_after self.now) S.Source reader.old reader.new) }
        ensures failed { IfErr result
            (SkipFails (rest_after self.now) S.Source reader.old reader.new) }
    {
        let Some(rest) = self.rest() else {
            return Ok(false);
        };
        let mut bunser = Bunser::new(alloc, IoRead::new(reader));
        match bunser.pass(rest) {
            Ok(()) => {
                let _reader = bunser.into_inner().into_inner();
                Ok(true)
            }
            Err(Refused) => {
                let error = bunser.take_refusal();
                let _reader = bunser.into_inner().into_inner();
                Err(error)
            }
        }
    }

    /// How many bytes of the message the reader has not given. None where that is not known, or
    /// the reader had given bytes past it.
    fn rest(&self) -> Option<usize>
        ensures { result ≡ rest_after self.now }
    {
        match self.header {
            Some(header) => header.message_length().checked_sub(self.given),
            None => None,
        }
    }
}
