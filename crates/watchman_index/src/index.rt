//! An index of files.
ghost use Rattle.std.specs.Prelude.{◌≡◌, ◌≢◌, not, map, Some, None, Err, IfOk, IfErr, OnOk, OnErr};
ghost use Rattle.std.specs.Bool.{Decides};
ghost use Rattle.std.specs.Option.{is_some};
ghost use Rattle.std.specs.BTreeMap.{IsEmpty, Updates};
ghost use Rattle.std.specs.Cmp.Lexicographic.{slice_cmp};
ghost use Rattle.std.specs.Map.Iter.{deref_pair};
ghost use Rattle.std.specs.Ordering.{nat_cmp};
ghost use Rattle.watchman_index.specs.Listings.{listing_of};
ghost use Rattle.watchman_index.specs.Origins.{Agrees};
ghost use Rattle.watchman_index.specs.Tables.{of_name, since_entries, AppliesPartly};
ghost use Rattle.watchman_index.specs.Tables.{Forgets, Puts, PutsPartly};
ghost use Rattle.watchman_index.specs.Turns.{IsApplied, IsNewClock, TakesClock};

use crate::changes::Changes;
use crate::listing::Listing;
use crate::origin::{ApplyError, Origin};
use crate::row::{FileState, Row};
use crate::standing::is_later;
use serde_bser::bytestring::ByteString;
use std::alloc::{AllocError, Global};
use std::collections::BTreeMap;

/// What is known of the files below a root, by their names.
///
/// Messages are numbered by the caller, in their order.
#[derive(Drop)]
pub struct Index {
    /// What the messages are of.
    pub origin: Origin,
    /// For each clock that a message had, the number of the last message up to it.
    pub clocks: BTreeMap<ByteString, u64>,
    /// The clock of the last message that listed files, up to which all changes are in.
    pub last_clock: Option<ByteString>,
    /// The files. Of those that were deleted it is known that they are.
    pub files: BTreeMap<ByteString, Row>,
}

/// What changed after a clock.
#[derive(Drop)]
pub struct ChangesSince<'a> {
    /// Whether the clock is not known, so that the files are all that there are.
    pub is_fresh_instance: bool,
    /// The files in rising order of their names.
    pub files: Vec<(&'a ByteString, &'a Row)>,
}

impl Index {
    /// Makes an index of no files.
    pub fn new(alloc: Global) -> Self
        ensures files { IsEmpty result.files }
        ensures clocks { IsEmpty result.clocks }
        ensures last { result.last_clock ≡ None }
    {
        Index {
            origin: Origin::new(),
            clocks: BTreeMap::new(alloc),
            last_clock: None,
            files: BTreeMap::new(alloc),
        }
    }

    /// Applies the changes of the message of this number, which joins what was told before it
    /// ([`Standing::of`](crate::standing::Standing::of)).
    ///
    /// A file that it lists has the state that it gives, and the message changed it. Where it lists
    /// all files, those that it does not list are gone; else they are as before.
    ///
    /// A message of another root or subscription is refused, and nothing is changed. Where there is
    /// no memory, each file is as before or as after the message, and all else is as before. So the
    /// message may be applied again.
    pub fn apply(&mut self, number: u64, changes: Changes) -> Result<(), ApplyError>
        ensures applied { OnOk result (IsApplied number changes self.old self.new) }
        ensures root { result ≡ Err ApplyError.OtherRoot
            → ¬ Agrees self.old.origin.root changes.root }
        ensures subscription { result ≡ Err ApplyError.OtherSubscription
            → ¬ Agrees self.old.origin.subscription changes.subscription }
        ensures refused { IfErr result (λ e. e ≢ ApplyError.OutOfMemory → self.new ≡ self.old) }
        ensures partly { OnErr result (AppliesPartly number
            (listing_of changes.is_fresh_instance)
            changes.files self.old.files self.new.files) }
        ensures last_on_err { OnErr result (self.new.last_clock ≡ self.old.last_clock) }
        ensures clocks_on_err { OnErr result (self.new.clocks.entries ≡ self.old.clocks.entries) }
        ensures origin_on_err { OnErr result (self.new.origin ≡ self.old.origin) }
    {
        self.origin.check(&changes)?;
        let Changes {
            root,
            subscription,
            clock,
            since: _,
            is_fresh_instance,
            files,
        } = changes;
        let listing = Listing::of(is_fresh_instance);
        if listing.is_of_all() {
            forget_unlisted(&mut self.files, number, &files);
        }
        put_listed(&mut self.files, number, files)?;
        let last = clock.clone()?;
        keep_clock(&mut self.clocks, number, clock)?;
        self.last_clock = Some(last);
        self.origin.learn(root, subscription);
        Ok(())
    }

    /// Keeps a clock that came behind the message of this number, and before the next. One that is
    /// known, and one that is not later than the last one
    /// ([`is_later`](crate::standing::is_later)), change nothing. The error is that there is no
    /// memory for it, and then nothing is changed.
    pub fn apply_clock(&mut self, number: u64, clock: ByteString) -> Result<(), AllocError>
        ensures kept { OnOk result (TakesClock number clock self.old self.new) }
        ensures files { self.new.files ≡ self.old.files }
        ensures origin { self.new.origin ≡ self.old.origin }
        ensures last { self.new.last_clock ≡ self.old.last_clock }
        ensures err { OnErr result (self.new.clocks.entries ≡ self.old.clocks.entries) }
    {
        if self.is_new(&clock) {
            keep_clock(&mut self.clocks, number, clock)
        } else {
            Ok(())
        }
    }

    /// Whether the clock is later than the last one, and not known.
    fn is_new(&self, clock: &ByteString) -> bool
        ensures { Decides result (IsNewClock self.now clock.now) }
    {
        is_later(self.last_clock.as_ref(), clock) && !self.clocks.contains_key(clock)
    }

    /// Returns the files that messages changed after this clock, also those that were deleted. For
    /// a clock that is not known, all files that exist. The error is that there is no memory for
    /// the list.
    pub fn changes_since(
        &self,
        alloc: Global,
        clock: &ByteString,
    ) -> Result<ChangesSince<'_>, AllocError>
        ensures fresh { IfOk result (λ since. since.is_fresh_instance
            ≡ not (is_some (of_name self.now.clocks clock.now))) }
        ensures files { IfOk result (λ since. map deref_pair since.files.items
            ≡ since_entries (of_name self.now.clocks clock.now) self.now.files) }
    {
        let known = self.clocks.get(clock).copied();
        let mut files = Vec::new(alloc);
        for (name, row) in &self.files {
            if row.is_since(known) {
                files.push((name, row))?;
            }
        }
        Ok(ChangesSince {
            is_fresh_instance: known.is_none(),
            files,
        })
    }
}

/// Files that the message of this number does not list are gone.
fn forget_unlisted(
    files: &mut BTreeMap<ByteString, Row>,
    number: u64,
    listed: &BTreeMap<ByteString, FileState>,
)
    ensures { Forgets number listed.now files.old files.new }
{
    files.retain(|name, row| {
        *row = row.kept(number, listed.contains_key(name));
        true
    });
}

/// Puts the files that the message of this number lists.
fn put_listed(
    files: &mut BTreeMap<ByteString, Row>,
    number: u64,
    listed: BTreeMap<ByteString, FileState>,
) -> Result<(), AllocError>
    ensures ok { OnOk result (Puts number listed files.old files.new) }
    ensures err { OnErr result (PutsPartly number listed files.old files.new) }
{
    for (name, state) in listed {
        files.insert(name, Row::told(number, state))?;
    }
    Ok(())
}

/// Keeps a clock as one of the message of this number.
fn keep_clock(
    clocks: &mut BTreeMap<ByteString, u64>,
    number: u64,
    clock: ByteString,
) -> Result<(), AllocError>
    ensures ok { OnOk result (Updates (slice_cmp nat_cmp)
        clocks.old clocks.new clock (Some number)) }
    ensures err { OnErr result (clocks.new.entries ≡ clocks.old.entries) }
{
    clocks.insert(clock, number)?;
    Ok(())
}
