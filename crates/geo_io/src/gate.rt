//! What is called before each turn of a run on threads.

/// Called before each turn of a worker of `geo live`, while the turn holds no lock of a node. It takes no runtime, so it returns: a
/// gate that holds a turn looks a stated number of times at most. It changes nothing that contracts see. (own)
pub trait Gate {
    /// Before a turn: the numbers, from 0, of the worker, of the actor whose turn it is, and of the worker's turn.
    fn pass(&self, worker: u32, actor: u32, turn: u64);
}

/// A gate that holds no turn.
#[derive(Clone, Copy)]
pub struct OpenGate;

impl Gate for OpenGate {
    fn pass(&self, _worker: u32, _actor: u32, _turn: u64) {}
}
