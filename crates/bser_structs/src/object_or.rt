//! What is an object by one type, and anything else by another.
ghost use Rattle.std.specs.Prelude.{◌||◌, None, true, false};
ghost use Rattle.std.proofs.Common.{ap, ◌∙◌};
ghost use Rattle.bser_types.specs.Choices.{reads_object_or};
ghost use Rattle.bser_structs.specs.Objects.{HoldsObjectOr, asking_object_or, object_or_tree};

use bser_bunser::refusal::Answer;
use bser_deserializer::deserializer::Deserializer;
use bser_deserializer::node::Node;
use bser_format::errors::Result;
use bser_ser::{Serialize, Serializer};
use bser_source::device::Sink;
use bser_source::read::DeRead;
use bser_source::reference::LendsText;
use bser_types::deserialize::{Deserialize, OwnedShape, Shape};
use std::alloc::Global;

/// A struct or a map where the message has an object, and a value of another type where it has
/// none.
///
/// So an answer's files are read, which are names where one field was asked for, and else objects.
/// It takes the place of serde's untagged enums whose choice is by the kind of the value alone.
#[derive(Debug, PartialEq, Eq, Drop)]
pub enum ObjectOr<O, T> {
    /// What an object, or a template's row, was read as.
    Object(O),
    /// What anything else was read as.
    Other(T),
}

/// Neither type is asked about a value of the other's kind: an object that the first one does not
/// read is an error.
impl<O: Shape, T: Shape> Shape for ObjectOr<O, T> {
    ghost reads = { reads_object_or O.reads T.reads };

    ghost holds = { HoldsObjectOr O.holds T.holds };

    ghost needs = { record {
      lent = O.needs.lent || T.needs.lent;
      memory = true;
      keys = false;
      copied = true;
    } };

    ghost asks = { asking_object_or O.asks T.asks };

    ghost plain = { None };
}

impl<L: LendsText, O: Deserialize<L>, T: Deserialize<L>> Deserialize<L> for ObjectOr<O, T> {
    fn deserialize<R: DeRead<Lent = L>>(
        alloc: Global,
        from: &mut Deserializer<R>,
    ) -> Answer<ObjectOr<O, T>> {
        match from.node()? {
            Node::Object => {
                let object = O::deserialize(alloc, from)?;
                Ok(ObjectOr::Object(object))
            }
            _ => {
                let other = T::deserialize(alloc, from)?;
                Ok(ObjectOr::Other(other))
            }
        }
    }
}

impl<O: OwnedShape, T: OwnedShape> OwnedShape for ObjectOr<O, T> {
    ghost owned = { ap (λ k. k || T.needs.lent) O.owned ∙ T.owned };
}

/// Written as the value that it holds.
impl<O: Serialize, T: Serialize> Serialize for ObjectOr<O, T> {
    ghost meaning = { object_or_tree O.meaning T.meaning };

    fn serialize<W: Sink>(&self, alloc: Global, out: &mut Serializer<W>) -> Result<()> {
        match self {
            ObjectOr::Object(object) => object.serialize(alloc, out),
            ObjectOr::Other(other) => other.serialize(alloc, out),
        }
    }
}
