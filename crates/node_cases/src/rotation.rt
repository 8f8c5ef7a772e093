//! The order of actors.
use actors::{Link, Role, roles};
use script_text::read_script;
use std::alloc::Global;
use std::test::Fail;

/// Two clusters, a topic, and a client with one subscription.
const SCRIPT: &[u8] =
    b"geo 1\ncluster a\ncluster b\ntopic t\nclient c t a\ndo c sub s exclusive earliest replicated\n";

const WANTED: &[Role] = &[
    Role::Replicator(Link {
        topic: 0,
        source: 0,
        target: 1,
    }),
    Role::Receiver(Link {
        topic: 0,
        source: 0,
        target: 1,
    }),
    Role::Replicator(Link {
        topic: 0,
        source: 1,
        target: 0,
    }),
    Role::Receiver(Link {
        topic: 0,
        source: 1,
        target: 0,
    }),
    Role::Controller {
        topic: 0,
        cluster: 0,
    },
    Role::Controller {
        topic: 0,
        cluster: 1,
    },
    Role::Dispatcher {
        topic: 0,
        cluster: 0,
        sub: 0,
    },
    Role::Dispatcher {
        topic: 0,
        cluster: 1,
        sub: 0,
    },
    Role::Client { client: 0 },
    Role::Server {
        topic: 0,
        client: 0,
    },
];

#[test]
fn actors_are_numbered_by_link_cluster_subscription_and_client(
    rt: HostRuntime,
) -> Result<(), Fail> {
    assert!(rt; are_numbered(rt.alloc())?);
    Ok(())
}

fn are_numbered(alloc: Global) -> Result<bool, Fail> {
    let scenario = read_script(alloc, SCRIPT)?;
    let roles = roles(alloc, &scenario);
    drop(scenario);
    Ok(are_same(roles?.as_slice(), WANTED))
}

fn are_same(roles: &[Role], wanted: &[Role]) -> bool {
    for (role, want) in roles.iter().zip(wanted) {
        if *role != *want {
            return false;
        }
    }
    roles.len() == wanted.len()
}
