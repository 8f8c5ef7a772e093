//! What a cursor's write leaves to be forgotten.
ghost use Rattle.std.specs.Prelude.{◌≡◌};
ghost use Rattle.geo_base.specs.Subscription.{forgotten};
ghost use Rattle.dispatcher.specs.Dispatch.{dispatch_of, sub_with};
ghost use Rattle.broker_subs.specs.Fresh.{SubHolds, held, noted};

use cursor_acks::Cursor;
use dispatcher::{Dispatcher, KeyPick};
use geo_base::Sequence;

/// Which indexes the last write of a cursor added, that may still be out or due: an acknowledgement is forgotten at the cost of
/// what it names, and not by going over all that is out.
#[derive(Drop)]
pub(crate) enum Fresh {
    /// Nothing that is out or due is acknowledged.
    Nothing,
    /// Just these.
    Each(Sequence<u64>),
    /// Just those up to one.
    To(u64),
    /// Nobody knows.
    Any,
}

/// A write of the cursor added these.
pub(crate) fn note(fresh: &mut Fresh, added: Fresh)
    ensures { fresh.new ≡ noted fresh.old added }
{
    match fresh {
        Fresh::Nothing => *fresh = added,
        Fresh::Each(_) | Fresh::To(_) | Fresh::Any => *fresh = Fresh::Any,
    }
}

/// An index comes to be out or due again, which is acknowledged or not: where nothing acknowledged was, that stays so unless it is.
pub(crate) fn hold(fresh: &mut Fresh, acked: bool)
    ensures { fresh.new ≡ held acked fresh.old }
{
    match fresh {
        Fresh::Nothing if !acked => {}
        _ => *fresh = Fresh::Any,
    }
}

/// Forgets what is acknowledged, of which this is told.
#[tactic(auto, using(crate::proofs::Told::forgets_nothing, crate::proofs::Told::forgets_each, crate::proofs::Told::forgets_to))]
pub(crate) fn forget(dispatcher: &mut Dispatcher<KeyPick>, fresh: &Fresh, cursor: &Cursor)
    requires { SubHolds dispatcher.old.dispatch.kind cursor.now.indexes dispatcher.old.dispatch fresh.now }
    ensures { dispatcher.new ≡ record dispatcher.old { dispatch = dispatch_of (forgotten (sub_with cursor.now.indexes dispatcher.old.dispatch)) } }
{
    match fresh {
        Fresh::Nothing => {}
        Fresh::Each(indexes) => dispatcher.forget_each(indexes.as_slice()),
        Fresh::To(index) => dispatcher.forget_to(*index),
        Fresh::Any => dispatcher.forget(cursor),
    }
}
