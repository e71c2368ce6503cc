//! The types that are read as keys of maps.
ghost use Rattle.std.specs.Prelude.{◌≡◌, ℕ, List, Some, refl, string_bytes};
ghost use Rattle.std.specs.Cmp.Lexicographic.{slice_cmp};
ghost use Rattle.std.specs.Ordering.{nat_cmp};
ghost use Rattle.std.specs.Str.{bytes_eq};
ghost use Rattle.bser_format.specs.Content.{Content, byte_list};
ghost use Rattle.bser_format.specs.Expand.{key_tree};
ghost use Rattle.bser_format.proofs.KeyNames.{string_key, slice_key, byte_string_key};

use crate::deserialize::Shape;
use bser_format::bytestring::ByteString;
use std::hash::Hash;

/// A type that is read as a map's key: it holds the key's bytes, and is equal and ordered as they
/// are.
pub trait MapKey: Shape + Ord + Hash {
    // its bytes
    ghost name: { Self → List ℕ };

    // what a key of an object reads as is its bytes
    ghost read_by_name: { (bytes : List ℕ) (c : Content)
        → Self.reads (key_tree bytes) ≡ Some c → c ≡ byte_list bytes };

    // what it holds is its bytes
    ghost held_by_name: { (key : Self) (c : Content)
        → Self.holds key c → c ≡ byte_list (name key) };

    // its order is that of the bytes
    ghost ordered_by_name: { (k l : Self) → Self.cmp k l ≡ slice_cmp nat_cmp (name k) (name l) };

    // its equality is that of the bytes
    ghost equal_by_name: { (k l : Self) → Self.eq k l ≡ bytes_eq (name k) (name l) };
}

impl MapKey for String {
    ghost name = { string_bytes };

    ghost read_by_name = { string_key };

    ghost held_by_name = { λ k c held. held };

    ghost ordered_by_name = { λ k l. refl };

    ghost equal_by_name = { λ k l. refl };
}

impl MapKey for ByteString {
    ghost name = { λ k. k };

    ghost read_by_name = { byte_string_key };

    ghost held_by_name = { λ k c held. held };

    ghost ordered_by_name = { λ k l. refl };

    ghost equal_by_name = { λ k l. refl };
}

impl<'de> MapKey for &'de str {
    ghost name = { λ k. k.now };

    ghost read_by_name = { string_key };

    ghost held_by_name = { λ k c held. held };

    ghost ordered_by_name = { λ k l. refl };

    ghost equal_by_name = { λ k l. refl };
}

impl<'de> MapKey for &'de [u8] {
    ghost name = { λ k. k.now };

    ghost read_by_name = { slice_key };

    ghost held_by_name = { λ k c held. held };

    ghost ordered_by_name = { λ k l. refl };

    ghost equal_by_name = { λ k l. refl };
}
