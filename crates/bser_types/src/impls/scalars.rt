//! Reading truth values, reals and `()`; writing reals.
ghost use Rattle.std.specs.Prelude.{◌≡◌, refl, Some, Ok, option_map};
ghost use Rattle.bser_format.specs.ReadsScalars.{reads_bool, reads_unit, reads_real};
ghost use Rattle.bser_deserializer.specs.Askings.{asking_bool, asking_real, asking_unit};
ghost use Rattle.bser_deserializer.specs.Reading.{bare};
ghost use Rattle.bser_deserializer.specs.Holds.{HoldsTruth, HoldsOne};
ghost use Rattle.bser_format.specs.Tree.{real};
ghost use Rattle.bser_format.specs.RealText.{float_of, bits_of};
ghost use Rattle.bser_types.specs.HoldsReals.{HoldsReal};

use crate::deserialize::{Deserialize, OwnedShape, Shape};
use bser_bunser::refusal::Answer;
use bser_deserializer::deserializer::Deserializer;
use bser_format::errors::Result;
use bser_format::real::{bits_of, float_of};
use bser_ser::{Serialize, Serializer};
use bser_source::device::Sink;
use bser_source::read::DeRead;
use bser_source::reference::LendsText;
use std::alloc::Global;

/// The 64 bits of a real.
#[derive(Debug, Clone, Copy, PartialEq, Eq)]
pub struct RealBits(pub u64);

impl RealBits {
    /// Returns the number, or `None` for a NaN, of which `f64::from_bits` makes no float.
    pub fn as_f64(self) -> Option<f64>
        ensures { result ≡ float_of self.0 }
    {
        float_of(self.0)
    }

    /// Returns the number as bits, or `None` for a NaN, whose bits are not known.
    pub fn from_f64(number: f64) -> Option<Self>
        ensures { option_map (λ real. real.0) result ≡ bits_of number }
    {
        Some(Self(bits_of(number)?))
    }
}

impl Shape for bool {
    ghost reads = { reads_bool };

    ghost holds = { HoldsTruth };

    ghost needs = { bare };

    ghost asks = { Some asking_bool };

    ghost plain = { Some (λ _. refl) };
}

impl<L: LendsText> Deserialize<L> for bool {
    #[inline(always)]
    fn deserialize<R: DeRead<Lent = L>>(
        _alloc: Global,
        from: &mut Deserializer<R>,
    ) -> Answer<bool> {
        from.read_bool()
    }
}

impl OwnedShape for bool {
    ghost owned = { refl };
}

/// A null, or a skipped field.
impl Shape for () {
    ghost reads = { reads_unit };

    ghost holds = { HoldsOne };

    ghost needs = { bare };

    ghost asks = { Some asking_unit };

    ghost plain = { Some (λ _. refl) };
}

impl<L: LendsText> Deserialize<L> for () {
    #[inline(always)]
    fn deserialize<R: DeRead<Lent = L>>(_alloc: Global, from: &mut Deserializer<R>) -> Answer<()> {
        from.read_unit()
    }
}

impl OwnedShape for () {
    ghost owned = { refl };
}

impl Shape for RealBits {
    ghost reads = { reads_real };

    ghost holds = { HoldsReal };

    ghost needs = { bare };

    ghost asks = { Some asking_real };

    ghost plain = { Some (λ _. refl) };
}

impl<L: LendsText> Deserialize<L> for RealBits {
    #[inline(always)]
    fn deserialize<R: DeRead<Lent = L>>(
        _alloc: Global,
        from: &mut Deserializer<R>,
    ) -> Answer<RealBits> {
        Ok(RealBits(from.read_real_bits()?))
    }
}

impl OwnedShape for RealBits {
    ghost owned = { refl };
}

impl Serialize for RealBits {
    ghost meaning = { λ v. Ok (real v.0) };

    fn serialize<W: Sink>(&self, _alloc: Global, out: &mut Serializer<W>) -> Result<()> {
        out.put_real_bits(self.0)
    }
}
