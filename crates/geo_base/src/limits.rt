//! The limits of a script and of a run, each with its reason.
ghost use Rattle.std.specs.Prelude.{◌≡◌};
ghost use Rattle.geo_base.specs.Cache.{most_cached};
ghost use Rattle.geo_base.specs.FrameSizes.{most_frame_size};
ghost use Rattle.geo_base.specs.Going.{most_acks, most_unanswered};
ghost use Rattle.geo_base.specs.Name.{most_name_bytes};
ghost use Rattle.geo_base.specs.Producing.{most_producer_name};
ghost use Rattle.geo_base.specs.Run.{most_events, most_sent_bytes};
ghost use Rattle.geo_base.specs.Scripted.{most_clients, most_clusters, most_flow, most_per_ledger, most_text_bytes, most_topics};
ghost use Rattle.geo_base.specs.Sizes.{most_entry_size};
ghost use Rattle.geo_base.specs.Subscribing.{most_subs};
ghost use Rattle.geo_base.specs.Subscription.{most_permits};

/// Bytes of a name: as many as a script's reader takes in at a glance (own).
pub const NAME_BYTES: usize = 16;

/// Clusters of a script: a target list is one byte of cluster bits (own).
pub const CLUSTERS: usize = 8;

/// Topics of a script (own).
pub const TOPICS: usize = 16;

/// Clients of a topic (own).
pub const CLIENTS: usize = 32;

/// Subscriptions of a topic (own).
pub const SUBSCRIPTIONS: usize = 32;

/// Bytes of the text that a script's client publishes (own).
pub const TEXT_BYTES: usize = 1_024;

/// Bytes of a producer's name that a broker attaches (own).
pub const PRODUCER_NAME_BYTES: usize = 1_024;

/// Publishes of a client that may wait for their receipts: its window, which bounds what a reconnect sends again (own).
pub const UNANSWERED: usize = 256;

/// Positions of one ACK, so that its frame stays below the limit on frames (own).
pub const ACKED_AT_ONCE: usize = 200_000;

/// Bytes of an entry's metadata and payload: Pulsar's largest message, 5 MiB.
pub const ENTRY_BYTES: u64 = 5_242_880;

/// Bytes of a frame after its first four: Pulsar's largest message and 10 KiB for what frames it.
pub const FRAME_BYTES: u64 = 5_253_120;

/// Permits of one `flow` line of a script (own).
pub const FLOW_PERMITS: u64 = 1_000_000;

/// Entries of a ledger that a script may name: twenty times Pulsar's default (own).
pub const MOST_LEDGER_ENTRIES: u64 = 1_000_000;

/// Entries of a ledger where a script does not say otherwise: Pulsar's default.
pub const LEDGER_ENTRIES: u64 = 50_000;

/// Snapshots in the cache of a subscription: Pulsar's default.
pub const CACHED_SNAPSHOTS: usize = 10;

/// Permits of a consumer: the most that a FLOW can name.
pub const PERMITS: u64 = 4_294_967_295;

/// Bytes of a script or of a state file, so that reading ends (own).
pub const INPUT_BYTES: usize = 67_108_864;

/// Events and idle events of a run together, so that a run ends (own).
pub const EVENTS: u64 = 2_000_000;

/// Bytes of all frames that a run sends, so that links fit in memory (own).
pub const SENT_BYTES: u64 = 1_073_741_824;

/// The numbers of the machine: its definitions write each themselves, and the constant here is the same.
pub fn machine_numbers()
    ensures name { NAME_BYTES ≡ most_name_bytes }
    ensures producer_name { PRODUCER_NAME_BYTES ≡ most_producer_name }
    ensures clusters { CLUSTERS ≡ most_clusters }
    ensures topics { TOPICS ≡ most_topics }
    ensures clients { CLIENTS ≡ most_clients }
    ensures subscriptions { SUBSCRIPTIONS ≡ most_subs }
    ensures text { TEXT_BYTES ≡ most_text_bytes }
    ensures flow { FLOW_PERMITS ≡ most_flow }
    ensures ledger { MOST_LEDGER_ENTRIES ≡ most_per_ledger }
    ensures unanswered { UNANSWERED ≡ most_unanswered }
    ensures acked { ACKED_AT_ONCE ≡ most_acks }
    ensures entry { ENTRY_BYTES ≡ most_entry_size }
    ensures frame { FRAME_BYTES ≡ most_frame_size }
    ensures cached { CACHED_SNAPSHOTS ≡ most_cached }
    ensures permits { PERMITS ≡ most_permits }
    ensures events { EVENTS ≡ most_events }
    ensures sent { SENT_BYTES ≡ most_sent_bytes }
{}
