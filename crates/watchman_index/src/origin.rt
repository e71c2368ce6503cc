//! What the messages of an index are of.
ghost use Rattle.std.specs.Prelude.{◌≡◌, ◌≢◌, Err, None, OnOk, IfErr};
ghost use Rattle.std.specs.Bool.{Decides};
ghost use Rattle.watchman_index.specs.Origins.{Agrees, Learns};

use crate::changes::Changes;
use serde_bser::bytestring::ByteString;
use std::alloc::AllocError;
use std::fmt;

/// The root and the subscription that the messages of an index are of.
#[derive(Debug, Drop)]
pub struct Origin {
    /// The root, once a message named it.
    pub root: Option<ByteString>,
    /// The subscription, once there was a message of one.
    pub subscription: Option<ByteString>,
}

/// Why a message is not applied.
#[derive(Debug, Clone, Copy, PartialEq, Eq)]
pub enum ApplyError {
    /// It is of another root.
    OtherRoot,
    /// It is of another subscription.
    OtherSubscription,
    /// No memory was left.
    OutOfMemory,
}

impl From<AllocError> for ApplyError {
    ghost use Rattle.watchman_index.specs.declared.origin.ApplyError.TheVariants as refusals;

    ghost from_gives = { λ _ e. e ≡ refusals.OutOfMemory };

    fn from(_: AllocError) -> Self {
        ApplyError::OutOfMemory
    }
}

impl fmt::Display for ApplyError {
    fn fmt<W: fmt::Write>(&self, f: &mut fmt::Formatter<W>) -> fmt::Result {
        f.write_str(match self {
            ApplyError::OtherRoot => "the message is of another root",
            ApplyError::OtherSubscription => "the message is of another subscription",
            ApplyError::OutOfMemory => "out of memory",
        })
    }
}

impl Origin {
    /// Begins with nothing known.
    pub fn new() -> Self
        ensures { (result.root ≡ None) × (result.subscription ≡ None) }
    {
        Origin {
            root: None,
            subscription: None,
        }
    }

    /// Fails for a message that names another root or another subscription than is known.
    pub fn check(&self, changes: &Changes) -> Result<(), ApplyError>
        ensures ok { OnOk result (Agrees self.now.root changes.now.root
            × Agrees self.now.subscription changes.now.subscription) }
        ensures root { result ≡ Err ApplyError.OtherRoot
            → ¬ Agrees self.now.root changes.now.root }
        ensures subscription { result ≡ Err ApplyError.OtherSubscription
            → ¬ Agrees self.now.subscription changes.now.subscription }
        ensures known { IfErr result (λ e. e ≢ ApplyError.OutOfMemory) }
    {
        if !agree(&self.root, &changes.root) {
            return Err(ApplyError::OtherRoot);
        }
        if !agree(&self.subscription, &changes.subscription) {
            return Err(ApplyError::OtherSubscription);
        }
        Ok(())
    }

    /// Keeps what a message names, where nothing is known yet.
    pub fn learn(&mut self, root: Option<ByteString>, subscription: Option<ByteString>)
        ensures { Learns self.old root subscription self.new }
    {
        if self.root.is_none() {
            self.root = root;
        }
        if self.subscription.is_none() {
            self.subscription = subscription;
        }
    }
}

/// Whether a message can be of the one that is known. One that names none can.
fn agree(known: &Option<ByteString>, told: &Option<ByteString>) -> bool
    ensures { Decides result (Agrees known.now told.now) }
{
    match (known, told) {
        (Some(known), Some(told)) => known == told,
        _ => true,
    }
}
