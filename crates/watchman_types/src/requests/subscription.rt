//! Subscriptions.
ghost use Rattle.std.specs.Prelude.{◌≡◌, codes, [], ◌∷◌, Ok};
ghost use Rattle.bser_format.specs.Tree.{text};
ghost use Rattle.bser_structs.specs.Entries.{entries_tree};
ghost use Rattle.watchman_types.specs.Terms.{tagged, bytes_tree};
ghost use Rattle.watchman_types.specs.Requests.{subscribe_entries, flush_entries};
ghost use Rattle.watchman_types.specs.Queries.{query_entries};

use crate::requests::bytes::Bytes;
use crate::requests::object::Object;
use crate::requests::query::Query;
use bser_format::errors::Result;
use bser_ser::{Serialize, Serializer};
use bser_source::device::Sink;
use bser_structs::Given;
use std::alloc::Global;

/// `subscribe`: the server sends from now on what the query answers, each time that files change.
#[derive(Clone, Copy)]
pub struct SubscribeRequest<'a> {
    pub root: Bytes<'a>,
    /// By it the server's messages name the subscription.
    pub name: &'a str,
    pub query: Query<'a>,
    /// Whether nothing is sent while a version control system is at work. The server takes `true`
    /// without it.
    pub defer_vcs: Option<bool>,
    /// The states in which changes are sent only at their end.
    pub defer: Option<&'a [&'a str]>,
    /// The states in which changes are not sent at all.
    pub drop: Option<&'a [&'a str]>,
}

impl<'a> SubscribeRequest<'a> {
    /// Makes a subscription that defers and drops nothing of its own.
    pub fn new(root: Bytes<'a>, name: &'a str, query: Query<'a>) -> Self
        ensures root { result.root ≡ root.entry }
        ensures name { result.name ≡ name.entry }
        ensures entries { subscribe_entries result ≡ query_entries query.entry }
    {
        SubscribeRequest {
            root,
            name,
            query,
            defer_vcs: None,
            defer: None,
            drop: None,
        }
    }
}

impl<'a> Serialize for SubscribeRequest<'a> {
    ghost meaning = { λ r. tagged (codes "subscribe")
        (bytes_tree r.root ∷ Ok (text r.name.now) ∷ entries_tree (subscribe_entries r) ∷ []) };

    fn serialize<W: Sink>(&self, alloc: Global, out: &mut Serializer<W>) -> Result<()> {
        let drop = (("drop", Given(&self.drop)), self.query);
        let defer = (("defer", Given(&self.defer)), drop);
        let options = Object((("defer_vcs", Given(&self.defer_vcs)), defer));
        ("subscribe", self.root, self.name, options).serialize(alloc, out)
    }
}

/// `unsubscribe`: the subscription of this name ends.
#[derive(Clone, Copy)]
pub struct UnsubscribeRequest<'a> {
    pub root: Bytes<'a>,
    pub name: &'a str,
}

impl<'a> Serialize for UnsubscribeRequest<'a> {
    ghost meaning = { λ r. tagged (codes "unsubscribe")
        (bytes_tree r.root ∷ Ok (text r.name.now) ∷ []) };

    fn serialize<W: Sink>(&self, alloc: Global, out: &mut Serializer<W>) -> Result<()> {
        ("unsubscribe", self.root, self.name).serialize(alloc, out)
    }
}

/// `flush-subscriptions`: the server sends what is due of the subscriptions before it answers.
#[derive(Clone, Copy)]
pub struct FlushSubscriptionsRequest<'a> {
    pub root: Bytes<'a>,
    /// How long the server may wait until it has seen all changes so far, in milliseconds.
    pub sync_timeout: u32,
    /// The names of the subscriptions; all without it.
    pub subscriptions: Option<&'a [&'a str]>,
}

impl<'a> Serialize for FlushSubscriptionsRequest<'a> {
    ghost meaning = { λ r. tagged (codes "flush-subscriptions")
        (bytes_tree r.root ∷ entries_tree (flush_entries r) ∷ []) };

    fn serialize<W: Sink>(&self, alloc: Global, out: &mut Serializer<W>) -> Result<()> {
        let subscriptions = (("subscriptions", Given(&self.subscriptions)), ());
        let options = Object((("sync_timeout", &self.sync_timeout), subscriptions));
        ("flush-subscriptions", self.root, options).serialize(alloc, out)
    }
}
