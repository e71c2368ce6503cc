//! The log of the server.
ghost use Rattle.std.specs.Prelude.{codes, [], ◌∷◌, refl};
ghost use Rattle.serde_bser.specs.StructFields.{required, optional, struct_meaning, none_lent};

use serde_bser::de::{Answer, Deserializer};
use serde_bser::prelude::*;
use std::alloc::Global;

/// The answer to `log-level`.
#[derive(Debug, Drop)]
pub struct LogLevel<S> {
    /// The version of the server.
    pub version: S,
    /// Which lines are sent from now on: `debug`, `error` or `off`.
    pub log_level: S,
}

impl<S: Shape> Fields for LogLevel<S> {
    ghost fields = { required (codes "version") (λ v. v.version) ⟦<S as ReadOnly>⟧.coding
        ∷ required (codes "log_level") (λ v. v.log_level) ⟦<S as ReadOnly>⟧.coding
        ∷ [] };
}

impl<S: Shape> Meant for LogLevel<S> {
    ghost meaning = { struct_meaning ⟦<LogLevel<S> as Fields>⟧.fields };
}

impl<L: LendsText, S: Deserialize<L>> Deserialize<L> for LogLevel<S> {
    fn deserialize<R: DeRead<Lent = L>>(alloc: Global, from: &mut Deserializer<R>) -> Answer<Self> {
        read_struct! {
            alloc,
            from,
            LogLevel {
                version: Required("version"),
                log_level: Required("log_level"),
            }
        }
    }
}

impl<S: OwnedShape> OwnedShape for LogLevel<S> {
    ghost owned = { none_lent S.owned (none_lent S.owned refl) };
}

/// The answer to `log`.
#[derive(Debug, Drop)]
pub struct Logged<S> {
    /// The version of the server.
    pub version: S,
    /// Whether the line was written.
    pub logged: bool,
}

impl<S: Shape> Fields for Logged<S> {
    ghost fields = { required (codes "version") (λ v. v.version) ⟦<S as ReadOnly>⟧.coding
        ∷ required (codes "logged") (λ v. v.logged) ⟦<bool as ReadOnly>⟧.coding
        ∷ [] };
}

impl<S: Shape> Meant for Logged<S> {
    ghost meaning = { struct_meaning ⟦<Logged<S> as Fields>⟧.fields };
}

impl<L: LendsText, S: Deserialize<L>> Deserialize<L> for Logged<S> {
    fn deserialize<R: DeRead<Lent = L>>(alloc: Global, from: &mut Deserializer<R>) -> Answer<Self> {
        read_struct! {
            alloc,
            from,
            Logged {
                version: Required("version"),
                logged: Required("logged"),
            }
        }
    }
}

impl<S: OwnedShape> OwnedShape for Logged<S> {
    ghost owned = { none_lent S.owned refl };
}

/// A line of the log.
#[derive(Debug, Drop)]
pub struct Log<S> {
    /// The line. It may hold a path, which need not be UTF-8.
    pub line: S,
    /// How grave it is, as `error`.
    pub level: Option<S>,
}

impl<S: Shape> Fields for Log<S> {
    ghost fields = { required (codes "log") (λ v. v.line) ⟦<S as ReadOnly>⟧.coding
        ∷ optional (codes "level") (λ v. v.level) ⟦<S as ReadOnly>⟧.coding
        ∷ [] };
}

impl<S: Shape> Meant for Log<S> {
    ghost meaning = { struct_meaning ⟦<Log<S> as Fields>⟧.fields };
}

impl<L: LendsText, S: Deserialize<L>> Deserialize<L> for Log<S> {
    fn deserialize<R: DeRead<Lent = L>>(alloc: Global, from: &mut Deserializer<R>) -> Answer<Self> {
        read_struct! {
            alloc,
            from,
            Log {
                line: Required("log"),
                level: Optional("level"),
            }
        }
    }
}

impl<S: OwnedShape> OwnedShape for Log<S> {
    ghost owned = { none_lent S.owned (none_lent S.owned refl) };
}
