//! A field of a struct, and what was read of it.
ghost use Rattle.std.specs.Prelude.{◌≡◌, Option, option_map, IfOk, OnOk, OnErr};
ghost use Rattle.bser_format.specs.Content.{Content};
ghost use Rattle.bser_deserializer.specs.Holds.{HoldsOption};
ghost use Rattle.bser_deserializer.specs.Reading.{Asking, Needs};
ghost use Rattle.bser_types.specs.Askings.{asking_option};
ghost use Rattle.bser_types.specs.Slots.{StructField, required, optional, fill, KeepsField};
ghost use Rattle.bser_structs.specs.FieldCalls.{Complains, ReadsOnce, RefusesOnce};
ghost use Rattle.bser_structs.specs.Structs.{Steps, RefusesKept, ReadsNew, RefusesFill, Ends};

use bser_bunser::refusal::{Answer, Refused};
use bser_deserializer::deserializer::Deserializer;
use bser_deserializer::note::Finding;
use bser_format::errors::Complaint;
use bser_source::read::DeRead;
use bser_source::reference::LendsText;
use bser_types::deserialize::Deserialize;
use std::alloc::Global;

/// A field of a struct, and what was read of it.
pub trait Slot<L: LendsText>: Drop {
    /// What the field is read as.
    type Value: Drop;

    // the field before it is read
    ghost field: { StructField };

    // what was read of it
    ghost keeps: { Self → StructField → Type 0 };

    // what its value holds
    ghost holds: { Self.Value → Content → Type 0 };

    // what reading it needs
    ghost needs: { Needs };

    // which reader gives its errors, where its type says one
    ghost asks: { Option (Asking Self.field.reads) };

    /// Makes a field that was not read yet.
    fn empty() -> Self
        ensures { Self.keeps result Self.field };

    /// Reads the value that is expected as the field's.
    ///
    /// A field that was read before is [`Complaint::ItemsLeft`], and a value gives the errors of
    /// its type. After an error the field is as it was, and each later call of the deserializer
    /// fails.
    fn fill<R: DeRead<Lent = L>>(&mut self, alloc: Global, from: &mut Deserializer<R>) -> Answer<()>
        ensures found { OnOk result (Steps fill Self.keeps self.old self.new from.old from.new) }
        ensures unchanged { OnErr result (self.new ≡ self.old) }
        ensures refused { OnErr result (RefusesKept Self.asks Self.needs (Self.keeps self.old)
            from.old from.new) };

    /// Reads the value that is expected as that of a field that was not read yet.
    ///
    /// The errors are those of its type. After one each later call of the deserializer fails.
    fn read<R: DeRead<Lent = L>>(alloc: Global, from: &mut Deserializer<R>) -> Answer<Self::Value>
        ensures found { IfOk result (ReadsNew Self.holds Self.field from.old from.new) }
        ensures refused { OnErr result (RefusesFill Self.asks Self.needs Self.field
            from.old from.new) };

    /// Returns the field's value, or None where it is required and absent.
    fn finish(self) -> Option<Self::Value>
        ensures { Ends Self.holds (Self.keeps self) result };
}

/// A field that has to be there.
#[derive(Drop)]
pub struct Required<T> {
    value: Option<T>,
}

impl<L: LendsText, T: Deserialize<L>> Slot<L> for Required<T> {
    ghost use Rattle.bser_structs.specs.SlotValues.{required_value};

    type Value = T;

    ghost field = { required T.reads };

    ghost keeps = { λ v. KeepsField (required T.reads) T.holds (required_value v) };

    ghost holds = { T.holds };

    ghost needs = { T.needs };

    ghost asks = { T.asks };

    #[inline(always)]
    fn empty() -> Self {
        Required { value: None }
    }

    #[inline(always)]
    fn fill<R: DeRead<Lent = L>>(
        &mut self,
        alloc: Global,
        from: &mut Deserializer<R>,
    ) -> Answer<()> {
        read_once(alloc, from, &mut self.value)
    }

    #[inline(always)]
    fn read<R: DeRead<Lent = L>>(alloc: Global, from: &mut Deserializer<R>) -> Answer<T> {
        T::deserialize(alloc, from)
    }

    #[inline(always)]
    fn finish(self) -> Option<T> {
        self.value
    }
}

/// A field that is `None` where it is null or absent.
#[derive(Drop)]
pub struct Optional<T> {
    value: Option<Option<T>>,
}

impl<L: LendsText, T: Deserialize<L>> Slot<L> for Optional<T> {
    ghost use Rattle.bser_structs.specs.SlotValues.{optional_value};

    type Value = Option<T>;

    ghost field = { optional T.reads };

    ghost keeps = { λ v. KeepsField (optional T.reads) (HoldsOption T.holds) (optional_value v) };

    ghost holds = { HoldsOption T.holds };

    ghost needs = { T.needs };

    ghost asks = { option_map asking_option T.asks };

    #[inline(always)]
    fn empty() -> Self {
        Optional { value: None }
    }

    #[inline(always)]
    fn fill<R: DeRead<Lent = L>>(
        &mut self,
        alloc: Global,
        from: &mut Deserializer<R>,
    ) -> Answer<()> {
        read_once(alloc, from, &mut self.value)
    }

    #[inline(always)]
    fn read<R: DeRead<Lent = L>>(alloc: Global, from: &mut Deserializer<R>) -> Answer<Option<T>> {
        Option::<T>::deserialize(alloc, from)
    }

    #[inline(always)]
    fn finish(self) -> Option<Option<T>> {
        match self.value {
            Some(value) => Some(value),
            None => Some(None),
        }
    }
}

/// Reads the value that is expected into a variable that has none.
#[inline(always)]
fn read_once<R: DeRead, T: Deserialize<R::Lent>>(
    alloc: Global,
    from: &mut Deserializer<R>,
    value: &mut Option<T>,
) -> Answer<()>
where
    R::Lent: LendsText,
    ensures found { OnOk result (ReadsOnce T.reads T.holds value.old value.new
        from.old from.new) }
    ensures unchanged { OnErr result (value.new ≡ value.old) }
    ensures refused { OnErr result (RefusesOnce T.asks T.needs value.old from.old from.new) }
{
    if value.is_some() {
        return Err(refuse_repeated(from));
    }
    *value = Some(T::deserialize(alloc, from)?);
    Ok(())
}

/// Fails for a field that was read before, and notes it.
#[cold]
#[inline(never)]
fn refuse_repeated<R: DeRead>(from: &mut Deserializer<R>) -> Refused
    ensures { Complains Complaint.ItemsLeft from.old from.new }
{
    from.complain_of(Complaint::ItemsLeft, Finding::Repeated)
}
