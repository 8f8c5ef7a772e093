//! The subscription that an event is about.
ghost use Rattle.std.specs.Prelude.{◌≡◌, []};
ghost use Rattle.std.specs.Str.{bytes_eq};
ghost use Rattle.geo_base.specs.Broker.{sub_named};
ghost use Rattle.geo_base.specs.Traced.{cursor_of};
ghost use Rattle.broker_state.specs.Plan.{created_name, name_in};

use broker::Broker;
use broker_state::{Plan, StateWrite};
use broker_subs::Sub;
use cursor_acks::Cursor;

/// The name of the subscription that a prepared event is about: of one that is here, or of the one that it creates.
pub(crate) fn name_of<'a>(node: &'a Broker, plan: &'a Plan) -> &'a [u8]
    ensures { result.now ≡ name_in node.entry.now.broker.subs plan.entry.now }
{
    match node.sub(plan.sub_index()) {
        Some(sub) => sub.name().as_str().as_bytes(),
        None => created_name(plan),
    }
}

/// The name of the subscription that a prepared event creates first, if it does.
fn created_name(plan: &Plan) -> &[u8]
    ensures { result.now ≡ created_name plan.entry.now.writes }
{
    if plan.write_count() == 0 {
        return b"";
    }
    match plan.write_at(0) {
        StateWrite::Create { sub, .. } => sub.name().as_str().as_bytes(),
        _ => b"",
    }
}

/// The cursor of the subscription of a name; this empty one, where there is none.
#[tactic(auto, using(crate::proofs::Steps::found_here, crate::proofs::Steps::found_next))]
pub(crate) fn cursor_of<'a>(node: &'a Broker, sub: &[u8], none: &'a Cursor) -> &'a Cursor
    requires { none.now.indexes ≡ [] }
    ensures { result.now.indexes ≡ cursor_of (sub_named node.entry.now.broker.subs sub.now) }
{
    for sub_index in 0..node.subs() {
        match node.sub(sub_index) {
            Some(found) if is_named(found, sub) => return found.cursor(),
            Some(_) => {}
            None => unreachable!(),
        }
    }
    none
}

/// Whether a subscription has a name.
fn is_named(sub: &Sub, name: &[u8]) -> bool
    ensures { result ≡ bytes_eq sub.now.sub.name name.now }
{
    sub.name().as_str().as_bytes() == name
}
