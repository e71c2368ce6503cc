//! Files.
ghost use Rattle.std.specs.Prelude.{codes, [], ◌∷◌, refl};
ghost use Rattle.serde_bser.specs.StructFields.{optional, struct_meaning, none_lent};

use crate::error_reply::ErrorReply;
use crate::file_type::FileType;
use serde_bser::de::{Answer, Deserializer, ObjectOr, RealBits};
use serde_bser::prelude::*;
use std::alloc::Global;

/// A file, by the fields that were asked for. The others are `None`.
///
/// A time is counted from 1970 on, and is negative before.
#[derive(Debug, Drop)]
pub struct File<S> {
    /// The path, from the root on. It need not be UTF-8.
    pub name: Option<S>,
    /// Where a symbolic link leads. It need not be UTF-8.
    pub symlink_target: Option<S>,
    /// The SHA-1 sum of the content, in hexadecimal digits, or why there is none.
    pub content_sha1hex: Option<ObjectOr<ErrorReply<S>, S>>,
    /// The clock when the file was last seen to change.
    pub oclock: Option<S>,
    /// The clock when the file was first seen.
    pub cclock: Option<S>,
    /// Whether the file exists. One that was deleted is listed with the last that was known of it.
    pub exists: Option<bool>,
    /// Whether the file is new since the clock that was asked for.
    pub new: Option<bool>,
    /// The type.
    pub kind: Option<FileType>,
    /// How many bytes the file has.
    pub size: Option<u64>,
    /// The type and the permissions, as `stat` gives them.
    pub mode: Option<u32>,
    /// When the content last changed, in seconds.
    pub mtime: Option<i64>,
    /// `mtime` in milliseconds.
    pub mtime_ms: Option<i64>,
    /// `mtime` in microseconds.
    pub mtime_us: Option<i64>,
    /// `mtime` in nanoseconds.
    pub mtime_ns: Option<i64>,
    /// `mtime` in seconds, as a real.
    pub mtime_f: Option<RealBits>,
    /// When the file or its status last changed, in seconds.
    pub ctime: Option<i64>,
    /// `ctime` in milliseconds.
    pub ctime_ms: Option<i64>,
    /// `ctime` in microseconds.
    pub ctime_us: Option<i64>,
    /// `ctime` in nanoseconds.
    pub ctime_ns: Option<i64>,
    /// `ctime` in seconds, as a real.
    pub ctime_f: Option<RealBits>,
    /// The user that owns the file.
    pub uid: Option<u32>,
    /// The group that owns the file.
    pub gid: Option<u32>,
    /// The number of the inode. One above `i64::MAX` comes as a negative number.
    pub ino: Option<i64>,
    /// The number of the device. One above `i64::MAX` comes as a negative number.
    pub dev: Option<i64>,
    /// How many hard links there are.
    pub nlink: Option<u64>,
}

impl<S: Shape> Fields for File<S> {
    ghost fields = { optional (codes "name") (λ v. v.name) ⟦<S as ReadOnly>⟧.coding
        ∷ optional (codes "symlink_target") (λ v. v.symlink_target) ⟦<S as ReadOnly>⟧.coding
        ∷ optional (codes "content.sha1hex") (λ v. v.content_sha1hex)
        ⟦<ObjectOr<ErrorReply<S>, S> as ReadOnly>⟧.coding
        ∷ optional (codes "oclock") (λ v. v.oclock) ⟦<S as ReadOnly>⟧.coding
        ∷ optional (codes "cclock") (λ v. v.cclock) ⟦<S as ReadOnly>⟧.coding
        ∷ optional (codes "exists") (λ v. v.exists) ⟦<bool as ReadOnly>⟧.coding
        ∷ optional (codes "new") (λ v. v.new) ⟦<bool as ReadOnly>⟧.coding
        ∷ optional (codes "type") (λ v. v.kind) ⟦<FileType as ReadOnly>⟧.coding
        ∷ optional (codes "size") (λ v. v.size) ⟦<u64 as ReadOnly>⟧.coding
        ∷ optional (codes "mode") (λ v. v.mode) ⟦<u32 as ReadOnly>⟧.coding
        ∷ optional (codes "mtime") (λ v. v.mtime) ⟦<i64 as ReadOnly>⟧.coding
        ∷ optional (codes "mtime_ms") (λ v. v.mtime_ms) ⟦<i64 as ReadOnly>⟧.coding
        ∷ optional (codes "mtime_us") (λ v. v.mtime_us) ⟦<i64 as ReadOnly>⟧.coding
        ∷ optional (codes "mtime_ns") (λ v. v.mtime_ns) ⟦<i64 as ReadOnly>⟧.coding
        ∷ optional (codes "mtime_f") (λ v. v.mtime_f) ⟦<RealBits as ReadOnly>⟧.coding
        ∷ optional (codes "ctime") (λ v. v.ctime) ⟦<i64 as ReadOnly>⟧.coding
        ∷ optional (codes "ctime_ms") (λ v. v.ctime_ms) ⟦<i64 as ReadOnly>⟧.coding
        ∷ optional (codes "ctime_us") (λ v. v.ctime_us) ⟦<i64 as ReadOnly>⟧.coding
        ∷ optional (codes "ctime_ns") (λ v. v.ctime_ns) ⟦<i64 as ReadOnly>⟧.coding
        ∷ optional (codes "ctime_f") (λ v. v.ctime_f) ⟦<RealBits as ReadOnly>⟧.coding
        ∷ optional (codes "uid") (λ v. v.uid) ⟦<u32 as ReadOnly>⟧.coding
        ∷ optional (codes "gid") (λ v. v.gid) ⟦<u32 as ReadOnly>⟧.coding
        ∷ optional (codes "ino") (λ v. v.ino) ⟦<i64 as ReadOnly>⟧.coding
        ∷ optional (codes "dev") (λ v. v.dev) ⟦<i64 as ReadOnly>⟧.coding
        ∷ optional (codes "nlink") (λ v. v.nlink) ⟦<u64 as ReadOnly>⟧.coding
        ∷ [] };
}

impl<S: Shape> Meant for File<S> {
    ghost meaning = { struct_meaning ⟦<File<S> as Fields>⟧.fields };
}

impl<L: LendsText, S: Deserialize<L>> Deserialize<L> for File<S> {
    fn deserialize<R: DeRead<Lent = L>>(alloc: Global, from: &mut Deserializer<R>) -> Answer<Self> {
        read_struct! {
            alloc,
            from,
            File {
                name: Optional("name"),
                symlink_target: Optional("symlink_target"),
                content_sha1hex: Optional("content.sha1hex"),
                oclock: Optional("oclock"),
                cclock: Optional("cclock"),
                exists: Optional("exists"),
                new: Optional("new"),
                kind: Optional("type"),
                size: Optional("size"),
                mode: Optional("mode"),
                mtime: Optional("mtime"),
                mtime_ms: Optional("mtime_ms"),
                mtime_us: Optional("mtime_us"),
                mtime_ns: Optional("mtime_ns"),
                mtime_f: Optional("mtime_f"),
                ctime: Optional("ctime"),
                ctime_ms: Optional("ctime_ms"),
                ctime_us: Optional("ctime_us"),
                ctime_ns: Optional("ctime_ns"),
                ctime_f: Optional("ctime_f"),
                uid: Optional("uid"),
                gid: Optional("gid"),
                ino: Optional("ino"),
                dev: Optional("dev"),
                nlink: Optional("nlink"),
            }
        }
    }
}

impl<S: OwnedShape> OwnedShape for File<S> {
    ghost owned = { none_lent S.owned (none_lent S.owned
        (none_lent (none_lent (none_lent S.owned (none_lent S.owned refl)) S.owned) (none_lent S.owned
        (none_lent S.owned refl)))) };
}
