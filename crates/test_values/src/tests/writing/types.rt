//! An enum and structs, written part by part.
ghost use Rattle.std.specs.Prelude.{Ok, [], ◌∷◌, codes};
ghost use Rattle.bser_format.specs.Tree.{text, bytes};
ghost use Rattle.bser_format.specs.Written.{tuple_tree, struct_tree, variant_tree};
ghost use Rattle.std.specs.Prelude.{OnOk, IfErr};
ghost use Rattle.bser_ser.specs.Ends.{Ends, Stops, field_text, CanBeWritten};

use bser_format::bytestring::ByteString;
use bser_format::errors::Result;
use bser_ser::{Serialize, Serializer};
use bser_source::device::Sink;
use bser_types::impls::RealBits;
use std::alloc::Global;

/// Variants of each form.
#[derive(Drop)]
pub enum WrittenEnum {
    TestUnit,
    TestNewtype(ByteString),
    TestTuple(i8, u64),
    TestStruct { abc: (), def: char },
}

impl Serialize for WrittenEnum {
    ghost use Rattle.test_values.specs.declared.tests.writing.types.WrittenEnum.TheVariants.{TestUnit, TestNewtype, TestTuple, TestStruct};
    ghost use Rattle.std.specs.Prelude.{pos, encode_utf8};
    ghost use Rattle.bser_format.specs.Tree.{null, integer};
    ghost use Rattle.bser_format.specs.Written.{unsigned_tree};

    ghost meaning = { λ v. elim v [
      | TestUnit ↦ Ok (text (codes "TestUnit"))
      | TestNewtype b ↦ variant_tree (codes "TestNewtype") (Ok (bytes b))
      | TestTuple m n ↦ variant_tree (codes "TestTuple") (tuple_tree (Ok (integer m) ∷ unsigned_tree n ∷ []))
      | TestStruct abc def ↦ variant_tree (codes "TestStruct") (struct_tree ((codes "abc", Ok null) ∷ (codes "def", Ok (text (encode_utf8 def))) ∷ []))
    ] };

    fn serialize<W: Sink>(&self, alloc: Global, out: &mut Serializer<W>) -> Result<()> {
        match self {
            WrittenEnum::TestUnit => out.put_text("TestUnit"),
            WrittenEnum::TestNewtype(payload) => {
                out.put_newtype_variant("TestNewtype")?;
                payload.serialize(alloc, out)
            }
            WrittenEnum::TestTuple(first, second) => {
                out.put_tuple_variant("TestTuple", 2)?;
                first.serialize(alloc, out)?;
                second.serialize(alloc, out)
            }
            WrittenEnum::TestStruct { abc, def } => {
                out.put_struct_variant("TestStruct", 2)?;
                out.put_key(b"abc")?;
                abc.serialize(alloc, out)?;
                out.put_key(b"def")?;
                def.serialize(alloc, out)
            }
        }
    }
}

/// A struct with a list, a tuple, an enum and a list of enums.
#[derive(Drop)]
pub struct TestStruct<E> {
    pub test_list: Vec<i32>,
    pub test_tuple: (&'static str, Option<RealBits>),
    pub test_enum: E,
    pub test_enum_list: Vec<E>,
}

impl<E: Serialize> Serialize for TestStruct<E> {
    ghost use Rattle.bser_format.specs.Tree.{integer, real};
    ghost use Rattle.bser_format.specs.Written.{array_tree, option_tree};

    ghost meaning = { λ v. struct_tree ((codes "test_list", array_tree (λ n. Ok (integer n)) v.test_list.items) ∷ (codes "test_tuple", tuple_tree (Ok (text v.test_tuple.0.now) ∷ option_tree (λ r. Ok (real r.0)) v.test_tuple.1 ∷ [])) ∷ (codes "test_enum", E.meaning v.test_enum) ∷ (codes "test_enum_list", array_tree E.meaning v.test_enum_list.items) ∷ []) };

    fn serialize<W: Sink>(&self, alloc: Global, out: &mut Serializer<W>) -> Result<()> {
        out.put_map(Some(4))?;
        put_field(alloc, out, b"test_list", &self.test_list)?;
        put_field(alloc, out, b"test_tuple", &self.test_tuple)?;
        put_field(alloc, out, b"test_enum", &self.test_enum)?;
        put_field(alloc, out, b"test_enum_list", &self.test_enum_list)
    }
}

/// Puts a field: its key, and then its value.
fn put_field<W: Sink, T: Serialize>(
    alloc: Global,
    out: &mut Serializer<W>,
    key: &[u8],
    value: &T,
) -> Result<()>
    ensures ok { OnOk result (Ends W.Sink
        (field_text key.now (T.meaning value.now)) out.old out.new) }
    ensures writable { OnOk result (CanBeWritten (T.meaning value.now)) }
    ensures err { IfErr result (Stops W.Sink
        (field_text key.now (T.meaning value.now)) out.old out.new) }
{
    out.put_key(key)?;
    value.serialize(alloc, out)
}
