//! The dispatcher of a subscription: which entry is offered next, and to which consumer (Pulsar manual, subscription types).
//!
//! The program's broker looks before it writes anything, by `busy`, `choice`, `on_ack`, `has_consumer` and `is_attached`, and does the
//! bare steps after (`join`, `permit`, `skip`, `give`, `leave`, `seek`, `forget`, `forget_each`, `forget_to`). For other teams are
//! `attach`, `permits`, `offer` and `detach`, each such a look and its step in one call; `next_offer`, which is `choice` told by the consumer's
//! id; `redeliver`, which is `leave` of consumers that stay; and `PlainPick`.
//!
//! What is out and what is due again ascend by index. So an offer, and each index of an acknowledgement (`forget_each`), costs
//! a binary search in both and in the cursor's ranges. An index that is out no more leaves an empty slot, so that acknowledgements move
//! nothing of what is out, in whatever order they come; one of an index that is due again, out of its turn, moves the shorter side of
//! what is due. `forget_to` goes over what it takes out alone. A consumer that leaves, and `forget`, go over all that is out.
//!
//! Keyed sharing ([`KeyPick`]): the messages of one key go to one consumer while the consumers stay (Pulsar manual, Key_Shared). To pick a
//! consumer costs a walk over the key's bytes on a Key_Shared subscription, and one over the consumers in order up to the first with a permit
//! on a Shared one; the other kinds look at one consumer.
#![tactic(auto)]

mod acking;
mod dispatcher;
mod due;
mod fault;
mod key_pick;
mod law;
mod offering;
mod parts;
mod plain_pick;
mod slot;
mod unacked;

pub use dispatcher::Dispatcher;
pub use fault::{AckFault, AttachFault, ConsumerNotFound};
pub use key_pick::{KeyPick, key_number};
pub use law::law_keys;
pub use offering::{Choice, Offer};
pub use plain_pick::PlainPick;
