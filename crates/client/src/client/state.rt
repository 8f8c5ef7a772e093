//! The parts of a client: as they are read, and as a state file keeps them.
ghost use Rattle.std.specs.Prelude.{◌≡◌, IfOk};
ghost use Rattle.client.specs.State.{stopped, viewed};

use crate::client::Client;
use crate::held::HeldTable;
use geo_base::limits::UNANSWERED;
use geo_base::{Ident, Memory};
use std::alloc::Global;

/// A client as a report and a state file read it: the cluster that it is at, the number of its connection and whether it has
/// it, how many lines are done, the indexes of the lines in force, those of the publishes that wait for their receipts, what it
/// holds, its counts, and the identities of all messages that came, in order of receipt.
#[derive(Clone, Copy, Drop)]
pub struct ClientView<'a> {
    pub cluster: u32,
    pub connection: u64,
    pub is_connected: bool,
    pub done: usize,
    pub produce: Option<usize>,
    pub sub: Option<usize>,
    pub flow: Option<usize>,
    pub unanswered: &'a [usize],
    pub held: &'a HeldTable,
    pub receipts: u64,
    pub duplicates: u64,
    pub errors: u64,
    pub got: &'a [Ident],
}

/// What a stop leaves of a client: all but its connection and what it holds. The fields are those of a view.
#[derive(Drop)]
pub struct ClientState {
    pub cluster: u32,
    pub connection: u64,
    pub done: usize,
    pub produce: Option<usize>,
    pub sub: Option<usize>,
    pub flow: Option<usize>,
    pub unanswered: Vec<usize>,
    pub receipts: u64,
    pub duplicates: u64,
    pub errors: u64,
    pub got: Vec<Ident>,
}

impl Client {
    /// The client of a state, which is not connected and holds nothing. An `Err` is want of memory for its window.
    pub fn from_state(alloc: Global, state: ClientState) -> Result<Client, Memory>
        ensures { IfOk result (λ k. k ≡ stopped state) }
    {
        let mut unanswered = state.unanswered;
        unanswered.reserve(UNANSWERED)?;
        Ok(Client {
            cluster: state.cluster,
            connection: state.connection,
            is_connected: false,
            done: state.done,
            produce: state.produce,
            sub: state.sub,
            flow: state.flow,
            unanswered,
            held: HeldTable::new(alloc),
            receipts: state.receipts,
            duplicates: state.duplicates,
            errors: state.errors,
            got: state.got,
        })
    }

    /// All parts of the client.
    pub fn view(&self) -> ClientView<'_>
        ensures { viewed result ≡ self.now }
    {
        ClientView {
            cluster: self.cluster,
            connection: self.connection,
            is_connected: self.is_connected,
            done: self.done,
            produce: self.produce,
            sub: self.sub,
            flow: self.flow,
            unanswered: self.unanswered.as_slice(),
            held: &self.held,
            receipts: self.receipts,
            duplicates: self.duplicates,
            errors: self.errors,
            got: self.got.as_slice(),
        }
    }
}
