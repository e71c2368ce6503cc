//! An enum that worked messages are read as, and a struct that holds it. A variant is read by the
//! place of its name, and its payload as one value.
ghost use Rattle.std.specs.Prelude.{false, ◌||◌, [], ◌∷◌, None};
ghost use Rattle.std.proofs.Common.{ap};
ghost use Rattle.bser_deserializer.specs.HoldsLists.{HoldsTuple};
ghost use Rattle.bser_types.specs.Slots.{struct_needs};
ghost use Rattle.bser_vectors.specs.Enums.{reads_test_struct, asking_test_struct, reads_test_enum, HoldsTestEnum, asking_test_enum, reads_enum_row, HoldsEnumRow, asking_enum_row};

use bser_bunser::refusal::Answer;
use bser_deserializer::deserializer::Deserializer;
use bser_source::read::DeRead;
use bser_source::reference::LendsText;
use bser_structs::enum_access::ReadsEnums;
use bser_structs::slot::Required;
use bser_structs::struct_reader::ReadsFields;
use bser_types::deserialize::{Deserialize, OwnedShape, Shape};
use std::alloc::Global;

/// A variant of each form.
#[derive(Debug, PartialEq, Eq, Drop, serde::Serialize, serde::Deserialize)]
pub enum TestEnum<S> {
    TestUnit,
    TestNewtype(S),
    TestTuple(S, S),
    TestStruct { abc: S, def: S },
}

impl<S: Shape> Shape for TestEnum<S> {
    ghost reads = { reads_test_enum S.reads };

    ghost holds = { HoldsTestEnum S.holds };

    ghost needs = { struct_needs (S.needs ∷ []) };

    ghost asks = { asking_test_enum S.asks };

    ghost plain = { None };
}

impl<L: LendsText, S: Deserialize<L>> Deserialize<L> for TestEnum<S> {
    fn deserialize<R: DeRead<Lent = L>>(
        alloc: Global,
        from: &mut Deserializer<R>,
    ) -> Answer<TestEnum<S>> {
        let variant = from.read_enum(
            "TestEnum",
            &["TestUnit", "TestNewtype", "TestTuple", "TestStruct"],
        )?;
        match variant.place() {
            0 => {
                variant.unit_variant()?;
                Ok(TestEnum::TestUnit)
            }
            1 => {
                let value = variant.newtype_variant::<S>(alloc)?;
                Ok(TestEnum::TestNewtype(value))
            }
            2 => {
                let (first, second) = variant.newtype_variant::<(S, S)>(alloc)?;
                Ok(TestEnum::TestTuple(first, second))
            }
            _ => {
                let TestStructFields { abc, def } = variant.newtype_variant::<TestStructFields<S>>(
                    alloc,
                )?;
                Ok(TestEnum::TestStruct { abc, def })
            }
        }
    }
}

impl<S: OwnedShape> OwnedShape for TestEnum<S> {
    ghost owned = { ap (λ a. a || false) S.owned };
}

/// What `TestStruct` holds.
#[derive(Drop)]
struct TestStructFields<S> {
    abc: S,
    def: S,
}

impl<S: Shape> Shape for TestStructFields<S> {
    ghost reads = { reads_test_struct S.reads };

    ghost holds = { λ v c. HoldsTuple (S.holds v.abc ∷ S.holds v.def ∷ []) c };

    ghost needs = { struct_needs (S.needs ∷ S.needs ∷ []) };

    ghost asks = { asking_test_struct S.asks };

    ghost plain = { None };
}

impl<L: LendsText, S: Deserialize<L>> Deserialize<L> for TestStructFields<S> {
    fn deserialize<R: DeRead<Lent = L>>(
        alloc: Global,
        from: &mut Deserializer<R>,
    ) -> Answer<TestStructFields<S>> {
        let (abc, (def, ())) = from.read_fields::<(Required<S>, (Required<S>, ()))>(
            alloc,
            &["abc", "def"],
        )?;
        Ok(TestStructFields { abc, def })
    }
}

/// A row with one field, an enum.
#[derive(Drop, serde::Serialize, serde::Deserialize)]
pub struct EnumRow<S> {
    pub abc: TestEnum<S>,
}

impl<S: Shape> Shape for EnumRow<S> {
    ghost reads = { reads_enum_row S.reads };

    ghost holds = { HoldsEnumRow S.holds };

    ghost needs = { struct_needs (struct_needs (S.needs ∷ []) ∷ []) };

    ghost asks = { asking_enum_row S.asks };

    ghost plain = { None };
}

impl<L: LendsText, S: Deserialize<L>> Deserialize<L> for EnumRow<S> {
    fn deserialize<R: DeRead<Lent = L>>(
        alloc: Global,
        from: &mut Deserializer<R>,
    ) -> Answer<EnumRow<S>> {
        let (abc, ()) = from.read_fields::<(Required<TestEnum<S>>, ())>(alloc, &["abc"])?;
        Ok(EnumRow { abc })
    }
}

impl<S: OwnedShape> OwnedShape for EnumRow<S> {
    ghost owned = { ap (λ a. (a || false) || false) S.owned };
}
