//! What holds of the text of a client alone.
ghost use Rattle.std.specs.Prelude.{◌≡◌, ℕ, ◌++◌, List, Ok};
ghost use Rattle.geo_base.specs.declared.client.Line.{Line};
ghost use Rattle.geo_base.specs.Client.{Client};
ghost use Rattle.state_nodes.specs.Clients.{client_at, client_text};
ghost use Rattle.state_nodes.specs.ClientFitting.{IsClientState};
ghost use Rattle.state_nodes.specs.ClientKnown.{IsKnownClient};

/// What was written is read again, whatever stands after it.
#[tactic(auto, using(crate::proofs::ClientBack::client_again))]
pub fn clients_read_back()
    ensures { (clusters : ℕ) (lines : List Line) (k : Client) (rest : List ℕ) → IsClientState clusters lines k → client_at clusters lines (client_text k ++ rest) ≡ Ok (k, rest) }
{}

/// What was read is what a stop leaves of a client with these lines: it passed each test of one.
pub fn client_is_known()
    ensures { (clusters : ℕ) (lines : List Line) (bytes : List ℕ) (x : Client × List ℕ) → client_at clusters lines bytes ≡ Ok x → IsKnownClient clusters lines x.0 }
{}
