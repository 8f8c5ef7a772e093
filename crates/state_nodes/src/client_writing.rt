//! Clients as texts.
ghost use Rattle.std.specs.Prelude.{◌≡◌, ◌++◌, OnOk, OnErr, take, length};
ghost use Rattle.std.specs.List.{flat_map};
ghost use Rattle.client.specs.State.{stopped};
ghost use Rattle.state_items.specs.Texts.{list, number};
ghost use Rattle.state_nodes.specs.Clients.{client_text, force_text, ident_text, index_text, place_text, tally_text};

use client::ClientState;
use geo_base::{Blob, Ident, Memory};
use state_items::{put_number, put_text};

/// Appends what a stop left of a client.
pub fn put_client(out: &mut Blob, state: &ClientState) -> Result<(), Memory>
    ensures ok { OnOk result (out.new ≡ out.old ++ client_text (stopped state.now)) }
    ensures err { OnErr result (take (length out.old) out.new ≡ out.old) }
{
    put_place(out, state)?;
    put_force(out, state)?;
    put_publishes(out, state.unanswered.as_slice())?;
    put_tally(out, state)?;
    put_got(out, state.got.as_slice())
}

fn put_place(out: &mut Blob, state: &ClientState) -> Result<(), Memory>
    ensures ok { OnOk result (out.new ≡ out.old ++ place_text (stopped state.now)) }
    ensures err { OnErr result (take (length out.old) out.new ≡ out.old) }
{
    put_number(out, u64::from(state.cluster))?;
    put_number(out, state.connection)?;
    put_number(out, state.done as u64)
}

fn put_force(out: &mut Blob, state: &ClientState) -> Result<(), Memory>
    ensures ok { OnOk result (out.new ≡ out.old ++ force_text (stopped state.now)) }
    ensures err { OnErr result (take (length out.old) out.new ≡ out.old) }
{
    put_index(out, state.produce)?;
    put_index(out, state.sub)?;
    put_index(out, state.flow)
}

/// A line's index and one more, 0 where there is none. An index after which there is no number counts as want of memory.
fn put_index(out: &mut Blob, index: Option<usize>) -> Result<(), Memory>
    ensures ok { OnOk result (out.new ≡ out.old ++ index_text index) }
    ensures err { OnErr result (out.new ≡ out.old) }
{
    let Some(index) = index else {
        return put_number(out, 0);
    };
    match (index as u64).checked_add(1) {
        None => Err(Memory),
        Some(number) => put_number(out, number),
    }
}

fn put_tally(out: &mut Blob, state: &ClientState) -> Result<(), Memory>
    ensures ok { OnOk result (out.new ≡ out.old ++ tally_text (stopped state.now)) }
    ensures err { OnErr result (take (length out.old) out.new ≡ out.old) }
{
    put_number(out, state.receipts)?;
    put_number(out, state.duplicates)?;
    put_number(out, state.errors)
}

fn put_publishes(out: &mut Blob, indexes: &[usize]) -> Result<(), Memory>
    ensures ok { OnOk result (out.new ≡ out.old ++ list number indexes.now) }
    ensures err { OnErr result (take (length out.old) out.new ≡ out.old) }
{
    put_number(out, indexes.len() as u64)?;
    put_each_index(out, indexes)
}

fn put_each_index(out: &mut Blob, indexes: &[usize]) -> Result<(), Memory>
    ensures ok { OnOk result (out.new ≡ out.old ++ flat_map number indexes.now) }
    ensures err { OnErr result (take (length out.old) out.new ≡ out.old) }
{
    for index in indexes {
        put_number(out, *index as u64)?;
    }
    Ok(())
}

fn put_got(out: &mut Blob, idents: &[Ident]) -> Result<(), Memory>
    ensures ok { OnOk result (out.new ≡ out.old ++ list ident_text idents.now) }
    ensures err { OnErr result (take (length out.old) out.new ≡ out.old) }
{
    put_number(out, idents.len() as u64)?;
    put_each_ident(out, idents)
}

fn put_each_ident(out: &mut Blob, idents: &[Ident]) -> Result<(), Memory>
    ensures ok { OnOk result (out.new ≡ out.old ++ flat_map ident_text idents.now) }
    ensures err { OnErr result (take (length out.old) out.new ≡ out.old) }
{
    for ident in idents {
        put_ident(out, ident)?;
    }
    Ok(())
}

fn put_ident(out: &mut Blob, ident: &Ident) -> Result<(), Memory>
    ensures ok { OnOk result (out.new ≡ out.old ++ ident_text ident.now) }
    ensures err { OnErr result (take (length out.old) out.new ≡ out.old) }
{
    put_number(out, u64::from(ident.origin))?;
    put_text(out, ident.producer.as_bytes())?;
    put_number(out, ident.seq)
}
