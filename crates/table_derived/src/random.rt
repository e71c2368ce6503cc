//! Random messages, and messages that are broken: each is read in several ways, which have to agree.
mod any;
mod body;
mod drawing;
mod faults;
mod judge;
mod message;
mod readings;
mod rewritten;
mod rows;
mod samples;

use crate::random::judge::compare_readings;
use crate::random::message::Message;
use anyhow::Result;
use std::alloc::Global;

/// Where random messages come from.
#[derive(Clone, Copy)]
pub struct Source {
    pub seed: u64,
    pub count: usize,
}

/// What came of messages.
#[derive(Clone, Copy, Default)]
struct Counts {
    whole: u64,
    read: u64,
    refused: u64,
    differ: u64,
}

impl Source {
    /// Prints a line for each message: what it is made to be read as, and its bytes in hexadecimal digits.
    pub fn print_all(self, rt: &HostRuntime) -> Result<()> {
        for n in 0..self.count {
            let message = self.message(rt.alloc(), n)?;
            println!(rt;
                "{}\t{}",
                message.target,
                hex::encode(rt.alloc(), &message.bytes)?
            )?;
        }
        Ok(())
    }

    /// Reads each message in several ways, and prints how many are answered in two.
    pub fn compare_all(self, rt: &HostRuntime) -> Result<()> {
        let mut counts = Counts::default();
        for n in 0..self.count {
            let message = self.message(rt.alloc(), n)?;
            let compared = compare_readings(rt.alloc(), &message, (n % 17).saturating_add(1));
            counts.count(&message, &compared);
            if let Err(difference) = &compared {
                let bytes = hex::encode(rt.alloc(), &message.bytes)?;
                println!(rt; "message {n}, {}, {bytes}: {difference}", message.target)?;
            }
        }
        println!(rt;
            "{} random messages of seed {}, {} of them made whole\n\
             {} read, {} refused\n{} answered in two ways",
            self.count, self.seed, counts.whole, counts.read, counts.refused, counts.differ
        )?;
        Ok(())
    }

    /// The message of this number.
    fn message(self, alloc: Global, number: usize) -> Result<Message> {
        Message::of_seed(alloc, self.seed.wrapping_add(u64::try_from(number)?))
    }
}

impl Counts {
    /// Counts a message.
    fn count(&mut self, message: &Message, compared: &Result<bool>) {
        if message.fault.is_none() {
            self.whole = self.whole.saturating_add(1);
        }
        match compared {
            Ok(true) => self.read = self.read.saturating_add(1),
            Ok(false) => self.refused = self.refused.saturating_add(1),
            Err(_) => self.differ = self.differ.saturating_add(1),
        }
    }
}
