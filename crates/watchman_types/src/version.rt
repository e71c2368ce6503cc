//! The version of the server.
ghost use Rattle.std.specs.Prelude.{◌≡◌, codes, [], ◌∷◌, refl, bytes_eq};
ghost use Rattle.watchman_types.specs.Capabilities.{one_is_true, says_true, first_missing};
ghost use Rattle.serde_bser.specs.StructFields.{required, optional, struct_meaning, none_lent};

use serde_bser::bytestring::ByteString;
use serde_bser::de::{Answer, Deserializer, MapKey};
use serde_bser::prelude::*;
use std::alloc::Global;
use std::collections::BTreeMap;

/// The answer to `version`.
#[derive(Debug, Drop)]
pub struct Version<S: Ord> {
    /// The version of the server.
    pub version: S,
    /// Which of the capabilities that the request asked for the server has, by their names.
    pub capabilities: Option<BTreeMap<S, bool>>,
}

impl<S: Shape + MapKey> Fields for Version<S> {
    ghost fields = { required (codes "version") (λ v. v.version) ⟦<S as ReadOnly>⟧.coding
        ∷ optional (codes "capabilities") (λ v. v.capabilities)
        ⟦<BTreeMap<S, bool> as ReadOnly>⟧.coding
        ∷ [] };
}

impl<S: Shape + MapKey> Meant for Version<S> {
    ghost meaning = { struct_meaning ⟦<Version<S> as Fields>⟧.fields };
}

impl<L: LendsText, S: Deserialize<L> + MapKey> Deserialize<L> for Version<S> {
    fn deserialize<R: DeRead<Lent = L>>(alloc: Global, from: &mut Deserializer<R>) -> Answer<Self> {
        read_struct! {
            alloc,
            from,
            Version {
                version: Required("version"),
                capabilities: Optional("capabilities"),
            }
        }
    }
}

impl<S: OwnedShape + MapKey> OwnedShape for Version<S> {
    ghost owned = { none_lent S.owned (none_lent (none_lent S.owned refl) refl) };
}

/// A text that the server's capabilities are named by.
pub trait CapabilityName: MapKey {
    /// Returns whether it has the bytes of `name`.
    fn is_named(&self, name: &str) -> bool
        ensures { result ≡ bytes_eq (Self.name self.now) name.now };
}

impl CapabilityName for String {
    fn is_named(&self, name: &str) -> bool {
        self.as_str() == name
    }
}

impl CapabilityName for ByteString {
    fn is_named(&self, name: &str) -> bool {
        self.as_bytes() == name.as_bytes()
    }
}

impl<'a> CapabilityName for &'a str {
    fn is_named(&self, name: &str) -> bool {
        *self == name
    }
}

impl<'a> CapabilityName for &'a [u8] {
    fn is_named(&self, name: &str) -> bool {
        *self == name.as_bytes()
    }
}

impl<S: CapabilityName> Version<S> {
    /// Returns whether the server says that it has the capability of this name.
    ///
    /// It is false of a name that the request did not ask for, and of each name where the server is
    /// too old to know capabilities and answers none.
    pub fn has_capability(&self, name: &str) -> bool
        ensures { result ≡ says_true S.name self.now.capabilities name.now }
    {
        match &self.capabilities {
            Some(told) => is_true(told, name),
            None => false,
        }
    }

    /// Returns the first of the names of which [`has_capability`](Self::has_capability) is false,
    /// or `None` where the server has them all.
    pub fn missing_capability<'n>(&self, required: &[&'n str]) -> Option<&'n str>
        ensures { result ≡ first_missing S.name self.now.capabilities required.now }
    {
        for name in required {
            if !self.has_capability(name) {
                return Some(*name);
            }
        }
        None
    }
}

/// Whether one of the capabilities has the name, and is true.
fn is_true<S: CapabilityName>(told: &BTreeMap<S, bool>, name: &str) -> bool
    ensures { result ≡ one_is_true S.name told.now.entries name.now }
{
    for (key, has) in told {
        if *has && key.is_named(name) {
            return true;
        }
    }
    false
}
