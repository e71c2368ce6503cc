//! Types of files.
ghost use Rattle.std.specs.Prelude.{◌≡◌, ◌≢◌, codes, [], ◌∷◌, true, false, refl, Ok, IfSome, IfNone};
ghost use Rattle.bser_format.specs.Tree.{text};
ghost use Rattle.serde_bser.specs.EnumVariants.{unit, enum_meaning};
ghost use Rattle.watchman_types.specs.Words.{file_type_word};
ghost use Rattle.watchman_types.specs.declared.file_type.FileType.{FileType};

use bser_format::errors::Result;
use bser_ser::{Serialize, Serializer};
use bser_source::device::Sink;
use serde_bser::de::{Answer, Deserializer};
use serde_bser::prelude::*;
use std::alloc::Global;

/// The type of a file, as Watchman names it by a letter.
#[derive(Debug, Clone, Copy, PartialEq, Eq)]
pub enum FileType {
    /// `f`
    Regular,
    /// `d`
    Directory,
    /// `l`
    Symlink,
    /// `b`
    BlockDevice,
    /// `c`
    CharacterDevice,
    /// `p`, a named pipe
    Fifo,
    /// `s`
    Socket,
    /// `D`, of Solaris
    Door,
    /// `?`, none that the server knows.
    Unknown,
}

impl FileType {
    /// Returns Watchman's letter for the type.
    pub fn word(self) -> &'static str
        ensures { result.now ≡ file_type_word self }
    {
        match self {
            FileType::Regular => "f",
            FileType::Directory => "d",
            FileType::Symlink => "l",
            FileType::BlockDevice => "b",
            FileType::CharacterDevice => "c",
            FileType::Fifo => "p",
            FileType::Socket => "s",
            FileType::Door => "D",
            FileType::Unknown => "?",
        }
    }

    /// Returns the type of this letter. `None` for a text that is none of the letters.
    pub fn from_word(word: &str) -> Option<FileType>
        ensures found { IfSome result (λ t. file_type_word t ≡ word.now) }
        ensures none { IfNone result ((t : FileType) → file_type_word t ≢ word.now) }
    {
        match word {
            "f" => Some(FileType::Regular),
            "d" => Some(FileType::Directory),
            "l" => Some(FileType::Symlink),
            "b" => Some(FileType::BlockDevice),
            "c" => Some(FileType::CharacterDevice),
            "p" => Some(FileType::Fifo),
            "s" => Some(FileType::Socket),
            "D" => Some(FileType::Door),
            "?" => Some(FileType::Unknown),
            _ => None,
        }
    }
}

impl Variants for FileType {
    ghost use Rattle.watchman_types.specs.declared.file_type.FileType.TheVariants.{Regular, Directory, Symlink, BlockDevice, CharacterDevice, Fifo, Socket, Door, Unknown};

    ghost variants = { unit (codes "f") (λ v. elim v [ Regular ↦ true | _ ↦ false ])
        ∷ unit (codes "d") (λ v. elim v [ Directory ↦ true | _ ↦ false ])
        ∷ unit (codes "l") (λ v. elim v [ Symlink ↦ true | _ ↦ false ])
        ∷ unit (codes "b") (λ v. elim v [ BlockDevice ↦ true | _ ↦ false ])
        ∷ unit (codes "c") (λ v. elim v [ CharacterDevice ↦ true | _ ↦ false ])
        ∷ unit (codes "p") (λ v. elim v [ Fifo ↦ true | _ ↦ false ])
        ∷ unit (codes "s") (λ v. elim v [ Socket ↦ true | _ ↦ false ])
        ∷ unit (codes "D") (λ v. elim v [ Door ↦ true | _ ↦ false ])
        ∷ unit (codes "?") (λ v. elim v [ Unknown ↦ true | _ ↦ false ])
        ∷ [] };
}

impl Meant for FileType {
    ghost meaning = { enum_meaning (codes "FileType") ⟦<FileType as Variants>⟧.variants };
}

impl<L: LendsText> Deserialize<L> for FileType {
    fn deserialize<R: DeRead<Lent = L>>(alloc: Global, from: &mut Deserializer<R>) -> Answer<Self> {
        read_enum!(
            alloc,
            from,
            FileType {
                Regular: "f",
                Directory: "d",
                Symlink: "l",
                BlockDevice: "b",
                CharacterDevice: "c",
                Fifo: "p",
                Socket: "s",
                Door: "D",
                Unknown: "?",
            }
        )
    }
}

impl OwnedShape for FileType {
    ghost owned = { refl };
}

impl Serialize for FileType {
    ghost meaning = { λ t. Ok (text (file_type_word t)) };

    fn serialize<W: Sink>(&self, _alloc: Global, out: &mut Serializer<W>) -> Result<()> {
        out.put_text(self.word())
    }
}
