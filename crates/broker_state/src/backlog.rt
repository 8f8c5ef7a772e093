//! What a subscription has not acknowledged.
ghost use Rattle.std.specs.Prelude.{◌≡◌, ◌≤◌, ◌+◌, ◌-◌, ◌^◌, min, length};
ghost use Rattle.geo_base.specs.Broker.{backlog};
ghost use Rattle.topic_store.specs.Messages.{messages_before};

use crate::state::BrokerState;
use broker_subs::Sub;
use cursor_acks::IndexRange;
use geo_base::EntryStore;
use topic_store::TopicLedger;

impl BrokerState {
    /// How many of the messages a subscription has not acknowledged: all of them but those in its cursor's ranges.
    pub fn backlog(&self, sub: &Sub) -> u64
        ensures { result ≡ backlog self.now.broker sub.now.sub }
    {
        let mut left = self.store.messages_before(self.store.len());
        for range in sub.cursor().ranges().iter() {
            left -= messages_in(&self.store, range);
        }
        left
    }
}

/// How many messages stand in a range of indexes.
#[tactic(auto, using(crate::proofs::Backlogs::capped))]
fn messages_in(store: &TopicLedger, range: IndexRange) -> u64
    ensures { result ≡ messages_before store.now.entries (range.last + 1) - messages_before store.now.entries range.first }
{
    let len = store.len() as u64;
    let end = store.messages_before(range.last.saturating_add(1).min(len) as usize);
    let first = store.messages_before(range.first.min(len) as usize);
    end.saturating_sub(first)
}
