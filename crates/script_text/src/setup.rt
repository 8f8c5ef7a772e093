//! The parts of what a script declares.
ghost use Rattle.std.specs.Prelude.{◌≡◌};
ghost use Rattle.script_text.specs.Script.{setup_with};

use crate::client::ClientDecl;
use geo_base::{ClusterName, Sequence, TopicName};
use std::marker::Model;

/// Entries of a ledger, clusters, topics and clients, each numbered from 0 in its order.
#[derive(Drop)]
pub(crate) struct SetupParts {
    per_ledger: u64,
    clusters: Sequence<ClusterName>,
    topics: Sequence<TopicName>,
    clients: Sequence<ClientDecl>,
}

impl Model for SetupParts {
    ghost use Rattle.geo_base.specs.Setup.{Setup};
    ghost use Rattle.script_text.specs.Script.{setup_with};

    ghost Value = { Setup };

    ghost view = { λ s. setup_with s.per_ledger s.clusters s.topics s.clients };
}

impl SetupParts {
    /// The parts in one.
    pub(crate) fn new(
        per_ledger: u64,
        clusters: Sequence<ClusterName>,
        topics: Sequence<TopicName>,
        clients: Sequence<ClientDecl>,
    ) -> SetupParts
        ensures { result ≡ setup_with per_ledger clusters topics clients }
    {
        SetupParts {
            per_ledger,
            clusters,
            topics,
            clients,
        }
    }

    /// How many entries a ledger takes.
    pub(crate) fn per_ledger(&self) -> u64
        ensures { result ≡ self.now.per_ledger }
    {
        self.per_ledger
    }

    /// The clusters' names.
    pub(crate) fn clusters(&self) -> &[ClusterName]
        ensures { result.now ≡ self.now.clusters }
    {
        self.clusters.as_slice()
    }

    /// The topics' names.
    pub(crate) fn topics(&self) -> &[TopicName]
        ensures { result.now ≡ self.now.topics }
    {
        self.topics.as_slice()
    }

    /// The clients.
    pub(crate) fn clients(&self) -> &[ClientDecl]
        ensures { result.now ≡ self.now.clients }
    {
        self.clients.as_slice()
    }
}
