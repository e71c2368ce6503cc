//! The terms of an expression that have several parts.
ghost use Rattle.std.specs.Prelude.{◌≡◌, Ok};
ghost use Rattle.bser_format.specs.Tree.{text};
ghost use Rattle.watchman_types.specs.Terms.{names_tree, name_tree, flags_tree, match_tree, pcre_tree, dirname_tree, since_tree};
ghost use Rattle.watchman_types.specs.Words.{scope_word};

use crate::requests::bytes::Bytes;
use crate::requests::comparison::Comparison;
use crate::requests::moment::{Moment, TimeField};
use crate::requests::object::Object;
use bser_format::errors::Result;
use bser_ser::{Serialize, Serializer};
use bser_source::device::Sink;
use std::alloc::Global;

/// Which part of a file's path is compared.
#[derive(Clone, Copy)]
pub enum Scope {
    /// `basename`, its last part
    Basename,
    /// `wholename`, all of it below the root
    Wholename,
}

impl Scope {
    /// Returns Watchman's word for it.
    pub fn word(self) -> &'static str
        ensures { result.now ≡ scope_word self }
    {
        match self {
            Scope::Basename => "basename",
            Scope::Wholename => "wholename",
        }
    }
}

impl Serialize for Scope {
    ghost meaning = { λ s. Ok (text (scope_word s)) };

    fn serialize<W: Sink>(&self, _alloc: Global, out: &mut Serializer<W>) -> Result<()> {
        out.put_text(self.word())
    }
}

/// The names that a file may have.
#[derive(Clone, Copy)]
pub enum Names<'a> {
    One(Bytes<'a>),
    /// Any of these.
    Several(&'a [Bytes<'a>]),
}

impl<'a> Serialize for Names<'a> {
    ghost meaning = { names_tree };

    fn serialize<W: Sink>(&self, alloc: Global, out: &mut Serializer<W>) -> Result<()> {
        match self {
            Names::One(name) => name.serialize(alloc, out),
            Names::Several(names) => names.serialize(alloc, out),
        }
    }
}

/// The term `name`: the file has one of these names. Without a scope its last part is compared.
#[derive(Clone, Copy)]
pub struct Name<'a> {
    pub names: Names<'a>,
    pub scope: Option<Scope>,
}

impl<'a> Serialize for Name<'a> {
    ghost meaning = { name_tree };

    fn serialize<W: Sink>(&self, alloc: Global, out: &mut Serializer<W>) -> Result<()> {
        match self.scope {
            Some(scope) => ("name", self.names, scope).serialize(alloc, out),
            None => ("name", self.names).serialize(alloc, out),
        }
    }
}

/// How a glob matches.
#[derive(Clone, Copy)]
pub struct MatchFlags {
    /// Whether it matches names that begin with a point.
    pub include_dot_files: bool,
    /// Whether a backslash in it is one.
    pub no_escape: bool,
}

impl Serialize for MatchFlags {
    ghost meaning = { flags_tree };

    fn serialize<W: Sink>(&self, alloc: Global, out: &mut Serializer<W>) -> Result<()> {
        let no_escape = (("noescape", &self.no_escape), ());
        Object((("includedotfiles", &self.include_dot_files), no_escape)).serialize(alloc, out)
    }
}

/// The term `match`: the file's name matches a glob, as `*.txt`. Without a scope its last part is
/// compared, and is written as the scope where there are flags.
#[derive(Clone, Copy)]
pub struct Match<'a> {
    pub pattern: &'a str,
    pub scope: Option<Scope>,
    pub flags: Option<MatchFlags>,
}

impl<'a> Serialize for Match<'a> {
    ghost meaning = { match_tree };

    fn serialize<W: Sink>(&self, alloc: Global, out: &mut Serializer<W>) -> Result<()> {
        match (self.scope, self.flags) {
            (Some(scope), Some(flags)) => {
                ("match", self.pattern, scope, flags).serialize(alloc, out)
            }
            (None, Some(flags)) => {
                ("match", self.pattern, Scope::Basename, flags).serialize(alloc, out)
            }
            (Some(scope), None) => ("match", self.pattern, scope).serialize(alloc, out),
            (None, None) => ("match", self.pattern).serialize(alloc, out),
        }
    }
}

/// The term `pcre`: the file's name matches a Perl compatible regular expression. Without a scope
/// its last part is compared.
#[derive(Clone, Copy)]
pub struct Pcre<'a> {
    pub pattern: &'a str,
    pub scope: Option<Scope>,
}

impl<'a> Serialize for Pcre<'a> {
    ghost meaning = { pcre_tree };

    fn serialize<W: Sink>(&self, alloc: Global, out: &mut Serializer<W>) -> Result<()> {
        match self.scope {
            Some(scope) => ("pcre", self.pattern, scope).serialize(alloc, out),
            None => ("pcre", self.pattern).serialize(alloc, out),
        }
    }
}

/// The term `dirname`: the file is below this directory. It is as many levels below it as `depth`
/// says, where a file right in it is at 0.
#[derive(Clone, Copy)]
pub struct Dirname<'a> {
    pub path: Bytes<'a>,
    pub depth: Option<Comparison>,
}

impl<'a> Serialize for Dirname<'a> {
    ghost meaning = { dirname_tree };

    fn serialize<W: Sink>(&self, alloc: Global, out: &mut Serializer<W>) -> Result<()> {
        match self.depth {
            Some(Comparison { operator, number }) => {
                ("dirname", self.path, ("depth", operator, number)).serialize(alloc, out)
            }
            None => ("dirname", self.path).serialize(alloc, out),
        }
    }
}

/// The term `since`: the file changed after this moment. Without a field it is by the server's
/// clock.
#[derive(Clone, Copy)]
pub struct Since<'a> {
    pub moment: Moment<'a>,
    pub field: Option<TimeField>,
}

impl<'a> Serialize for Since<'a> {
    ghost meaning = { since_tree };

    fn serialize<W: Sink>(&self, alloc: Global, out: &mut Serializer<W>) -> Result<()> {
        match self.field {
            Some(field) => ("since", self.moment, field).serialize(alloc, out),
            None => ("since", self.moment).serialize(alloc, out),
        }
    }
}
