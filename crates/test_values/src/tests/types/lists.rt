//! A tuple that takes no memory.
ghost use Rattle.std.specs.Prelude.{◌≡◌, ℕ, List, [], ◌∷◌, ◌++◌, IsOk};
ghost use Rattle.bser_format.specs.Content.{Content};
ghost use Rattle.bser_format.specs.ReadsHolders.{reads_tuple};
ghost use Rattle.bser_format.specs.ReadsScalars.{reads_signed, reads_string};
ghost use Rattle.serde_bser.specs.Messages.{ReadsMessageAs};

use bser_vectors::messages::PAIR;
use serde_bser::de::from_slice;
use serde_bser::errors::Result;
use std::alloc::Global;

/// Reads a number and a text. A message of them is answered, whatever memory there is.
fn number_and_text<'de>(alloc: Global, bytes: &'de [u8]) -> Result<(i64, &'de str)>
    ensures { (text rest : List ℕ) (c : Content) → ReadsMessageAs 128
        (reads_tuple (reads_signed 64 ∷ reads_string ∷ [])) text c → bytes.now ≡ text ++ rest
        → IsOk result }
{
    from_slice(alloc, bytes)
}

#[test]
fn a_number_and_a_text_take_no_memory(rt: HostRuntime) {
    assert!(rt; matches!(number_and_text(rt.alloc(), PAIR), Ok((7, "x"))));
}
