//! What a change in memory does to a subscription.
ghost use Rattle.std.specs.Prelude.{◌≡◌, ◌≤◌, ◌<◌, ◌+◌, ◌^◌, length};
ghost use Rattle.geo_base.specs.Cache.{cached};
ghost use Rattle.geo_base.specs.Dispatcher.{given, skipped_index};
ghost use Rattle.geo_base.specs.Subscription.{after_acks, attached, cleared, detached, permitted};
ghost use Rattle.broker_subs.specs.Steps.{SubChangeFits, room_needed, sub_changed};

use crate::fresh::{Fresh, forget, hold};
use crate::sub::Sub;
use geo_base::{CachedSnapshot, Consumer};

/// A change in memory of a subscription, with all the memory that it takes.
#[derive(Drop)]
pub enum SubChange {
    /// A consumer joins, last in order.
    Attach(Consumer),
    /// A client's consumers gain permits.
    Permit { client: u32, permits: u64 },
    /// An index was offered to no consumer, being a marker's.
    Skipped(u64),
    /// An index was given to the consumer at a place in the order.
    Given { index: u64, consumer_index: usize },
    /// A snapshot enters the cache.
    Cache(CachedSnapshot),
    /// The cursor was written: nothing acknowledged is out or due, and the cache gives up what the mark has passed.
    Acked,
    /// A seek or a restart: no consumer, nothing out, due again or cached, and reading begins at the first entry.
    Cleared,
}

impl Sub {
    /// Makes a change. It takes no memory.
    pub fn change(&mut self, change: SubChange)
        requires room { room_needed change ≤ self.old.room }
        requires fits { SubChangeFits self.old.sub change }
        ensures sub { self.new.sub ≡ sub_changed change self.old.sub }
        ensures room { self.old.room ≡ self.new.room + room_needed change }
        ensures acks { self.new.acks ≡ self.old.acks }
    {
        match change {
            SubChange::Attach(consumer) => self.attach(consumer),
            SubChange::Permit { client, permits } => self.dispatcher.permit(client, permits),
            SubChange::Skipped(index) => self.skip(index),
            SubChange::Given {
                index,
                consumer_index,
            } => self.give(index, consumer_index),
            SubChange::Cache(snapshot) => self.cache.add(snapshot.index, snapshot.cut),
            SubChange::Acked => self.forget_acked(),
            SubChange::Cleared => self.clear(),
        }
    }

    #[tactic(auto, using(crate::proofs::Told::holds_attached))]
    fn attach(&mut self, consumer: Consumer)
        requires { 0 < self.old.room }
        ensures sub { self.new.sub ≡ attached consumer self.old.sub }
        ensures room { self.new.room + 1 ≡ self.old.room }
        ensures acks { self.new.acks ≡ self.old.acks }
    {
        self.dispatcher.join(consumer, self.durable.kind);
    }

    #[tactic(auto, using(crate::proofs::Told::holds_passed))]
    fn skip(&mut self, index: u64)
        requires { index + 1 < 2 ^ 64 }
        ensures { self.new ≡ record self.old { sub = skipped_index index self.old.sub } }
    {
        self.dispatcher.skip(index);
    }

    /// Where nothing acknowledged was left, that stays so unless the index is acknowledged.
    #[tactic(auto, using(crate::proofs::Told::holds_given))]
    fn give(&mut self, index: u64, consumer_index: usize)
        requires room { 0 < self.old.room }
        requires index { index + 1 < 2 ^ 64 }
        requires consumer_index { consumer_index < length self.old.sub.consumers }
        ensures sub { self.new.sub ≡ given index consumer_index self.old.sub }
        ensures room { self.new.room + 1 ≡ self.old.room }
        ensures acks { self.new.acks ≡ self.old.acks }
    {
        hold(&mut self.fresh, self.durable.cursor.is_acked(index));
        self.dispatcher.give(index, consumer_index);
    }

    /// A client's consumers leave, if it has any here, and what was out with them and is not acknowledged is due again. It takes no
    /// memory.
    #[tactic(auto, using(crate::proofs::Told::holds_detached))]
    pub fn leave(&mut self, client: u32)
        ensures { self.new ≡ record self.old { sub = detached client self.old.sub } }
    {
        hold(&mut self.fresh, false);
        self.dispatcher.leave(client, &self.durable.cursor);
    }

    #[tactic(auto, using(crate::proofs::Told::own_kind, crate::proofs::Told::holds_forgotten))]
    fn forget_acked(&mut self)
        ensures { self.new ≡ record self.old { sub = after_acks self.old.sub } }
    {
        forget(&mut self.dispatcher, &self.fresh, &self.durable.cursor);
        self.fresh = Fresh::Nothing;
        if self.durable.replicated {
            self.cache.advance(self.durable.cursor.mark_delete());
        }
    }

    /// A seek or a restart: what is in memory is lost.
    #[tactic(auto, using(crate::proofs::Told::holds_cleared))]
    pub fn clear(&mut self)
        ensures { self.new ≡ record self.old { sub = cleared self.old.sub } }
    {
        self.dispatcher.seek();
        self.cache.clear();
        self.fresh = Fresh::Nothing;
    }
}
