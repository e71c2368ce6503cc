//! The writer as a serializer of serde's.
use crate::write_error::WriteError;
use crate::writer::unwritten::refusal;
use crate::writer::{Put, Role, Writer};
use serde::{Case, NameKind, Serializer};

impl Serializer for Writer {
    type Error = WriteError;

    #[inline(always)]
    fn bool(&mut self, v: bool) -> Put {
        let put = self.draft.put_bool(v);
        self.answer(put)
    }

    #[inline(always)]
    fn i64(&mut self, v: i64) -> Put {
        let put = self.draft.put_i64(v);
        self.answer(put)
    }

    #[inline(always)]
    fn u64(&mut self, v: u64) -> Put {
        match i64::try_from(v) {
            Ok(v) => self.i64(v),
            Err(_) => {
                self.expect_value()?;
                Err(self.too_big(v))
            }
        }
    }

    fn i128(&mut self, v: i128) -> Put {
        match i64::try_from(v) {
            Ok(v) => self.i64(v),
            Err(_) => Err(self.out_of_range()),
        }
    }

    fn u128(&mut self, v: u128) -> Put {
        match i64::try_from(v) {
            Ok(v) => self.i64(v),
            Err(_) => Err(self.out_of_range()),
        }
    }

    fn f32(&mut self, v: f32) -> Put {
        self.f64(f64::from(v))
    }

    fn f64(&mut self, v: f64) -> Put {
        let bits = std::num::f64_to_bits_with_nan(v);
        let put = self.draft.put_real_bits(bits);
        self.answer(put)
    }

    fn char(&mut self, v: char) -> Put {
        let mut buffer = [0; 4];
        self.put_str(v.encode_utf8(&mut buffer))
    }

    #[inline(always)]
    fn str(&mut self, v: &str) -> Put {
        self.put_str(v)
    }

    #[inline(always)]
    fn bytes(&mut self, v: &[u8]) -> Put {
        if !self.draft.is_value_due() {
            return match str::from_utf8(v) {
                Ok(key) => self.put_due_key(key),
                Err(_) => Err(self.unexpected()),
            };
        }
        let put = self.draft.put_bytes(v);
        self.answer(put)
    }

    #[inline(always)]
    fn unit(&mut self) -> Put {
        if !self.draft.is_value_due() && self.role == Role::Flat {
            self.role = Role::Value;
            return Ok(());
        }
        let put = self.draft.put_null();
        self.answer(put)
    }

    fn str_cased(&mut self, name: &str, case: Case) -> Put {
        if case == Case::AsIs {
            return self.put_str(name);
        }
        match self.spelled(NameKind::Variant, name, case) {
            Ok(spelled) => self.put_str(spelled.as_str()),
            Err(failure) => Err(failure),
        }
    }

    fn begin_seq(&mut self, len: Option<usize>) -> Put {
        self.expect_value()?;
        match len {
            None => Err(self.uncounted()),
            Some(count) => {
                let put = self.draft.open_array(count);
                self.answer(put)
            }
        }
    }

    fn end_seq(&mut self) -> Put {
        let put = self.draft.close();
        self.answer(put)
    }

    #[inline(always)]
    fn begin_map(&mut self, len: Option<usize>) -> Put {
        if !self.draft.is_value_due() {
            return self.begin_merged();
        }
        match len {
            None => self.begin_counted(),
            Some(count) => {
                let put = self.draft.open_object(count);
                self.answer(put)
            }
        }
    }

    #[inline(always)]
    fn end_map(&mut self) -> Put {
        if let Some(map) = self.maps.last() {
            if map.depth == self.draft.depth() {
                return self.end_kept_open();
            }
        }
        let put = self.draft.close();
        self.answer(put)
    }

    #[inline(always)]
    fn key_cased(&mut self, name: &str, case: Case) -> Put {
        if case == Case::AsIs {
            return self.put_key(name);
        }
        self.put_spelled_key(NameKind::Field, name, case)
    }

    fn variant_key(&mut self, name: &str, case: Case) -> Put {
        if case == Case::AsIs {
            return self.put_key(name);
        }
        self.put_spelled_key(NameKind::Variant, name, case)
    }

    fn begin_key(&mut self) -> Put {
        self.role = Role::Key;
        Ok(())
    }

    fn end_key(&mut self) -> Put {
        if self.role == Role::Key {
            return Err(self.unexpected());
        }
        Ok(())
    }

    fn flatten_next(&mut self) -> Put {
        self.role = Role::Flat;
        Ok(())
    }

    fn custom(&self, message: &str) -> WriteError {
        refusal(self.alloc, message)
    }
}
