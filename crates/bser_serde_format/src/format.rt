//! A walk as a format of serde's.
use crate::kept::{KeptWalk, KnownBody};
use crate::naming::{Naming, Wrong};
use crate::walk::{ReadReal, StepError};
use bser_format::header::{
    BSER_ARRAY, BSER_BYTESTRING, BSER_FALSE, BSER_INT8, BSER_INT16, BSER_INT32, BSER_INT64,
    BSER_OBJECT, BSER_REAL, BSER_TEMPLATE, BSER_TRUE, BSER_UTF8STRING,
};
use serde::{Format, Kind, Name, find};
use std::alloc::Global;
use std::num::{f64_from_bits_with_nan, nearest_f64_to_f32_with_nan, nearest_i64_to_f64};

/// Each step looks at what comes, and goes past what it reads.
impl<'m, N: Naming, K: KnownBody> Format for KeptWalk<'m, N, K> {
    type Error = N::Error;

    type Mark = usize;

    #[inline(always)]
    fn bool(&mut self, _input: &[u8]) -> Result<bool, N::Error> {
        let before = self.walk.left();
        let read = self.walk.truth();
        self.told(before, read)
    }

    #[inline(always)]
    fn i64(&mut self, _input: &[u8]) -> Result<i64, N::Error> {
        let before = self.walk.left();
        let read = self.walk.integer();
        self.told(before, read)
    }

    #[inline(always)]
    fn u64(&mut self, input: &[u8]) -> Result<u64, N::Error> {
        match u64::try_from(self.i64(input)?) {
            Ok(number) => Ok(number),
            Err(_) => Err(self.error(Wrong::Unheld)),
        }
    }

    fn i128(&mut self, input: &[u8]) -> Result<i128, N::Error> {
        Ok(i128::from(self.i64(input)?))
    }

    fn u128(&mut self, input: &[u8]) -> Result<u128, N::Error> {
        Ok(u128::from(self.u64(input)?))
    }

    fn f32(&mut self, input: &[u8]) -> Result<f32, N::Error> {
        Ok(nearest_f64_to_f32_with_nan(self.f64(input)?))
    }

    /// The real with these bits, or the float nearest to the integer. A float's NaN has no bits.
    fn f64(&mut self, _input: &[u8]) -> Result<f64, N::Error> {
        let before = self.walk.left();
        let read = self.walk.real();
        match self.told(before, read)? {
            ReadReal::Bits(bits) => Ok(f64_from_bits_with_nan(bits)),
            ReadReal::Integer(number) => Ok(nearest_i64_to_f64(number)),
        }
    }

    fn char(&mut self, _input: &[u8]) -> Result<char, N::Error> {
        let before = self.walk.left();
        let read = self.walk.text();
        let mut chars = self.told(before, read)?.chars();
        match (chars.next(), chars.next()) {
            (Some(c), None) => Ok(c),
            _ => Err(self.error(Wrong::Invalid)),
        }
    }

    #[inline(always)]
    fn plain_str(&mut self, input: &[u8]) -> Result<(usize, usize), N::Error> {
        let before = self.walk.left();
        let read = self.walk.span();
        let span = self.told(before, read)?;
        let end = input.len().wrapping_sub(span.behind);
        Ok((end.wrapping_sub(span.len), end))
    }

    #[inline(always)]
    fn plain_bytes(&mut self, input: &[u8]) -> Result<(usize, usize), N::Error> {
        self.plain_str(input)
    }

    #[inline(always)]
    fn string(&mut self, alloc: Global, _input: &[u8]) -> Result<String, N::Error> {
        let before = self.walk.left();
        let read = self.walk.text();
        match String::from_str(alloc, self.told(before, read)?) {
            Ok(text) => Ok(text),
            Err(_) => Err(self.no_memory()),
        }
    }

    #[inline(always)]
    fn byte_buf(&mut self, alloc: Global, _input: &[u8]) -> Result<Vec<u8>, N::Error> {
        let before = self.walk.left();
        let read = self.walk.string();
        match Vec::from_slice(alloc, self.told(before, read)?) {
            Ok(bytes) => Ok(bytes),
            Err(_) => Err(self.no_memory()),
        }
    }

    fn peek(&mut self, _input: &[u8]) -> Result<Kind, N::Error> {
        Ok(match self.walk.tag() {
            BSER_TRUE | BSER_FALSE => Kind::Bool,
            BSER_INT8 | BSER_INT16 | BSER_INT32 | BSER_INT64 => Kind::Signed,
            BSER_REAL => Kind::Float,
            BSER_BYTESTRING | BSER_UTF8STRING => Kind::Str,
            BSER_ARRAY | BSER_TEMPLATE => Kind::Seq,
            BSER_OBJECT => Kind::Map,
            _ => Kind::Unit,
        })
    }

    #[inline(always)]
    fn take_unit(&mut self, _input: &[u8]) -> Result<bool, N::Error> {
        let before = self.walk.left();
        let read = self.walk.unit();
        let answer = self.told(before, Ok(read));
        if !read {
            self.names.not_null(before);
        }
        answer
    }

    #[inline(always)]
    fn take_none(&mut self, input: &[u8]) -> Result<bool, N::Error> {
        self.take_unit(input)
    }

    #[inline(always)]
    fn begin_seq(&mut self, _input: &[u8]) -> Result<(), N::Error> {
        let before = self.walk.left();
        let read = self.walk.array();
        self.told(before, read)
    }

    #[inline(always)]
    fn next_item(&mut self, _input: &[u8]) -> Result<bool, N::Error> {
        let levels = self.walk.inner.depth();
        let before = self.walk.left();
        let read = self.walk.has_item();
        let comes = self.told(before, read)?;
        if comes {
            self.names.passed(before);
        } else {
            self.names.ended(levels);
        }
        Ok(comes)
    }

    /// Where no map is taken, nothing more is read, whatever place is gone back to.
    #[inline(always)]
    fn begin_map(&mut self, input: &[u8]) -> Result<(), N::Error> {
        if !N::TAKES_MAPS {
            self.drop_mark(0);
            self.walk.stop();
            return Err(self.error(Wrong::Unheld));
        }
        self.begin_struct(input)?;
        Ok(())
    }

    /// A struct is an object, and no array of its fields.
    #[inline(always)]
    fn begin_struct(&mut self, _input: &[u8]) -> Result<bool, N::Error> {
        let before = self.walk.left();
        let read = self.walk.object();
        self.told(before, read)?;
        Ok(false)
    }

    #[inline(always)]
    fn next_key(&mut self, _input: &[u8], names: &[Name<'_>]) -> Result<Option<usize>, N::Error> {
        let before = self.walk.left();
        let read = self.walk.next_key();
        match self.key_told(before, read)? {
            Some(key) => Ok(Some(find(names, key.text))),
            None => Ok(None),
        }
    }

    fn next_entry(&mut self, _input: &[u8]) -> Result<bool, N::Error> {
        let before = self.walk.left();
        let read = self.walk.next_key();
        match self.key_told(before, read)? {
            Some(key) => {
                self.walk.hold(key);
                Ok(true)
            }
            None => Ok(false),
        }
    }

    fn variant(&mut self, _input: &[u8], names: &[Name<'_>]) -> Result<usize, N::Error> {
        let before = self.walk.left();
        let read = self.walk.text();
        Ok(find(names, self.told(before, read)?))
    }

    #[inline(always)]
    fn skip(&mut self, _input: &[u8]) -> Result<(), N::Error> {
        let before = self.walk.left();
        let levels = levels_of(self.walk.tag());
        let read = self.walk.skip();
        self.told(before, read)?;
        if levels != 0 {
            self.names.ended(levels);
        }
        Ok(())
    }

    fn mark(&mut self) -> usize {
        self.put_mark()
    }

    fn rewind(&mut self, mark: usize) {
        self.go_back(mark);
        self.names.passed(self.walk.left());
    }

    fn release(&mut self, mark: usize) {
        self.drop_mark(mark);
    }

    fn is_fatal(&self, error: &N::Error) -> bool {
        self.names.is_memory(error)
    }

    #[inline(always)]
    fn missing(&self, name: &str) -> N::Error {
        self.error(Wrong::Missing(name))
    }

    #[inline(always)]
    fn duplicate(&self, name: &str) -> N::Error {
        self.error(Wrong::Repeated(name))
    }

    #[inline(always)]
    fn unknown_key(&self) -> N::Error {
        self.error(Wrong::UnknownKey)
    }

    #[inline(always)]
    fn unknown_variant(&self) -> N::Error {
        self.error(Wrong::UnknownVariant)
    }

    #[inline(always)]
    fn wrong_len(&self) -> N::Error {
        self.error(Wrong::WrongLength)
    }

    #[inline(always)]
    fn invalid(&self) -> N::Error {
        self.error(Wrong::Unheld)
    }

    #[inline(always)]
    fn no_memory(&self) -> N::Error {
        self.error(Wrong::Step(StepError::Memory))
    }

    #[inline(always)]
    fn custom(&self, message: &str) -> N::Error {
        self.error(Wrong::Custom(message))
    }
}

/// How many levels has a container with this tag. 0 of any other value.
#[inline(always)]
fn levels_of(tag: u8) -> usize {
    match tag {
        BSER_ARRAY | BSER_OBJECT => 1,
        BSER_TEMPLATE => 2,
        _ => 0,
    }
}
