//! A random message.
use crate::random::any::{Extent, Maker};
use crate::random::faults::{FAULTS, Fault};
use crate::random::rows::{ROW, VARIANT_ROW};
use anyhow::Result;
use std::alloc::Global;
use std::fmt;

/// What a message is made to be read as.
#[derive(Clone, Copy, PartialEq)]
pub enum Target {
    /// A `Value` alone.
    Any,
    /// A `Value`, with containers at the border of 128 levels.
    Deep,
    /// A `Vec<TemplateRow<String>>`.
    Rows,
    /// A `Files<String>`.
    Files,
    /// A `Vec<TestEnum<String>>`.
    Variants,
    /// A `Vec<EnumRow<String>>`.
    VariantRows,
}

impl fmt::Display for Target {
    fn fmt<W: fmt::Write>(&self, f: &mut fmt::Formatter<W>) -> fmt::Result {
        f.write_str(match self {
            Target::Any => "any",
            Target::Deep => "deep",
            Target::Rows => "rows",
            Target::Files => "files",
            Target::Variants => "variants",
            Target::VariantRows => "variant-rows",
        })
    }
}

/// What is drawn from: values of any kind more often than deep ones.
const TARGETS: [Target; 9] = [
    Target::Any,
    Target::Any,
    Target::Any,
    Target::Any,
    Target::Deep,
    Target::Rows,
    Target::Files,
    Target::Variants,
    Target::VariantRows,
];

/// How a message has to be answered.
#[derive(Clone, Copy, PartialEq)]
pub enum Expected {
    /// As it may be.
    Anything,
    /// It is refused at this place.
    RefusedAt(usize),
    /// It is read, or refused at this place.
    ReadOrRefusedAt(usize),
}

/// A message, and what is known of it.
#[derive(Drop)]
pub struct Message {
    pub bytes: Vec<u8>,
    pub target: Target,
    pub fault: Option<Fault>,
    pub expected: Expected,
}

impl Message {
    /// The message of a seed.
    pub fn of_seed(alloc: Global, seed: u64) -> Result<Message> {
        let mut maker = Maker::new(alloc, seed);
        let target = maker.drawing.choose(&TARGETS, Target::Any);
        maker.put_target(target)?;
        if !maker.drawing.is_once_in(3) {
            return maker.whole(target);
        }
        let fault = maker.drawing.choose(&FAULTS, Fault::Cut);
        maker.broken(target, fault)
    }
}

impl Maker {
    /// Puts a value that the type reads.
    fn put_target(&mut self, target: Target) -> Result<()> {
        match target {
            Target::Any => {
                let containers = self.drawing.below(12);
                self.put_any(Extent::Wide(containers))
            }
            Target::Deep => {
                let levels = self.drawing.below(14).saturating_add(118);
                self.put_any(Extent::Deep(levels))
            }
            Target::Rows => self.put_rows(&ROW),
            Target::Files => self.put_files(),
            Target::Variants => self.put_variants(),
            Target::VariantRows => self.put_rows(&VARIANT_ROW),
        }
    }

    /// The message of the body.
    fn whole(mut self, target: Target) -> Result<Message> {
        let length = self.body.bytes.len();
        let _start = self.put_header(length)?;
        Ok(self.message(target, None, Expected::Anything))
    }

    /// The message of the body with the fault. Where levels are many they may be told before it, and
    /// of an object that is no variant its key is told.
    fn broken(mut self, target: Target, fault: Fault) -> Result<Message> {
        let told = self.break_body(fault)?;
        let length = self.body.bytes.len();
        let announced = match fault {
            Fault::WrongLength => self.wrong_length(length),
            _ => length,
        };
        let start = self.put_header(announced)?;
        let expected = self.break_message(fault, told, start)?;
        let expected = match (target, fault) {
            (Target::Deep, _) | (Target::Variants | Target::VariantRows, Fault::Stray) =>
                Expected::Anything,
            _ => expected,
        };
        Ok(self.message(target, Some(fault), expected))
    }

    /// Breaks the message, where the fault is one of a message, and answers what is expected of it.
    /// `told` is where the body's fault is told, behind a header of `start` bytes.
    fn break_message(
        &mut self,
        fault: Fault,
        told: Option<usize>,
        start: usize,
    ) -> Result<Expected> {
        match (fault, told) {
            (Fault::Cut, _) => Ok(Expected::RefusedAt(self.cut())),
            (Fault::WrongLength, _) => Ok(Expected::RefusedAt(self.body.bytes.len())),
            (Fault::AnyBytes, _) => self.put_any_bytes(),
            (_, None) => Ok(Expected::Anything),
            (Fault::Stray, Some(told)) => Ok(Expected::ReadOrRefusedAt(told.saturating_add(start))),
            (_, Some(told)) => Ok(Expected::RefusedAt(told.saturating_add(start))),
        }
    }

    /// What was made.
    fn message(self, target: Target, fault: Option<Fault>, expected: Expected) -> Message {
        let Maker { body, .. } = self;
        Message {
            bytes: body.bytes,
            target,
            fault,
            expected,
        }
    }

    /// Another length than this.
    fn wrong_length(&mut self, length: usize) -> usize {
        let other = self.drawing.below(length.saturating_add(300));
        if other == length {
            length.saturating_add(1)
        } else {
            other
        }
    }

    /// Puts a header before the body, and answers how long it is.
    fn put_header(&mut self, announced: usize) -> Result<usize> {
        let body = self.body.bytes.split_off(0)?;
        let [a, b, c, d, ..] = self.drawing.bits().to_le_bytes();
        self.body.put(&[0, 2, a, b, c, d])?;
        self.put_count(announced)?;
        let start = self.body.bytes.len();
        self.body.put(&body)?;
        Ok(start)
    }

    /// Cuts the message behind one of its bytes, and answers where.
    fn cut(&mut self) -> usize {
        let place = self.drawing.below(self.body.bytes.len()).max(1);
        self.body.bytes.truncate(place);
        place
    }

    /// Puts any bytes in the place of two.
    fn put_any_bytes(&mut self) -> Result<Expected> {
        for _ in 0..2 {
            let at = self.drawing.below(self.body.bytes.len());
            let [low, byte, ..] = self.drawing.bits().to_le_bytes();
            let byte = if low < 128 { byte } else { byte & 15 };
            self.body.replace(at, at.saturating_add(1), &[byte])?;
        }
        Ok(Expected::Anything)
    }
}
