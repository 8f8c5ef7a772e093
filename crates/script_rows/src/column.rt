//! The columns of a row: what may stand at each place of a line.

/// A choice among words.
#[derive(Clone, Copy, Drop, PartialEq, Eq)]
pub enum Menu {
    /// the version of a script: `1`
    Version,
    /// what becomes of a packet: `good`, `lost` or `twice`
    Fate,
    /// how consumers share a subscription: `exclusive`, `shared`, `failover` or `keyshared`
    SubKind,
    /// where a new subscription begins: `latest` or `earliest`
    Start,
    /// whether a subscription is replicated: `local` or `replicated`
    Replication,
}

/// What a client's line makes of its client: a producer does not move.
#[derive(Clone, Copy, Drop, PartialEq, Eq)]
pub enum Role {
    Plain,
    Producer,
    Mover,
}

/// What stands at one place of a line.
#[derive(Clone, Copy, Drop, PartialEq, Eq)]
pub enum Column {
    /// a declared topic; the line is about it
    Topic,
    /// a declared cluster
    Cluster,
    /// another declared cluster than the one before
    Other,
    /// a declared client
    Client,
    /// the declared client that does a line; the line is about its topic
    Doer(Role),
    /// a subscription of the line's topic
    Offered,
    /// the name of a subscription, of the line's topic
    Sub,
    /// the name of a declared client, of any topic
    Producer,
    /// the name of one more cluster
    NewCluster,
    /// the name of one more topic
    NewTopic,
    /// the name of one more client
    NewClient,
    /// the declared topic of one more client
    Home,
    /// `*`, or names of clusters with commas between them
    Targets,
    /// a key, or `-`
    Key,
    /// all that is left
    Text,
    /// a number in a range
    Count { least: u32, most: u32 },
    /// how many packets of a thousand are lost
    Lost,
    /// how many of a thousand come twice: no more than are not lost
    Twice,
    /// a sequence id: it fits a signed number of 64 bits
    Seq,
    /// `L:E` or `end`
    PositionOrEnd,
    /// a word of a choice
    Menu(Menu),
}
