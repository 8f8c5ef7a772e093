//! What a stop leaves of a client.
ghost use Rattle.std.specs.Prelude.{◌≡◌, [], List, true, false, MatchOption};
ghost use Rattle.std.specs.Str.{is_utf8};
ghost use Rattle.geo_base.specs.declared.entry.Ident.{Ident};
ghost use Rattle.client.specs.State.{stopped};
ghost use Rattle.state_items.specs.Reading.{Gives, list_at, many};
ghost use Rattle.state_nodes.specs.Clients.{client_at, ident_at, place_at, tally_at};

use crate::force::{force_at, unanswered_at};
use client::ClientState;
use geo_base::{Ident, Line, ProducerName};
use state_items::{ItemFault, MOST_COUNT, Rule, judge, number_at, number_within, text_at};
use std::alloc::Global;

/// Where a client is, which connection was its last, and how many of its lines are done.
#[derive(Clone, Copy, Drop)]
pub(crate) struct ClientProgress {
    pub(crate) cluster: u32,
    pub(crate) connection: u64,
    pub(crate) done: usize,
}

/// A client's receipts, duplicates and errors.
#[derive(Clone, Copy, Drop)]
pub(crate) struct Tally {
    pub(crate) receipts: u64,
    pub(crate) duplicates: u64,
    pub(crate) errors: u64,
}

/// Reads what a stop left of a client with these lines, among so many clusters.
#[tactic(auto, unfolding(crate::specs::Clients::client_at))]
pub fn client_at<'a>(
    alloc: Global,
    clusters: u32,
    lines: &[Line],
    bytes: &'a [u8],
) -> Result<(ClientState, &'a [u8]), ItemFault>
    ensures { Gives (λ x. (stopped x.0, x.1.now)) result (client_at clusters lines.now bytes.now) }
{
    let (place, rest) = place_at(clusters, lines, bytes)?;
    let (force, rest) = force_at(lines, place.done, rest)?;
    let (unanswered, rest) = unanswered_at(alloc, lines, place.done, force.produce, rest)?;
    let (tally, rest) = tally_at(rest)?;
    let (got, rest) = got_at(alloc, clusters, rest)?;
    let state = ClientState {
        cluster: place.cluster,
        connection: place.connection,
        done: place.done,
        produce: force.produce,
        sub: force.sub,
        flow: force.flow,
        unanswered,
        receipts: tally.receipts,
        duplicates: tally.duplicates,
        errors: tally.errors,
        got,
    };
    Ok((state, rest))
}

#[tactic(auto, unfolding(crate::specs::Clients::place_at))]
fn place_at<'a>(
    clusters: u32,
    lines: &[Line],
    bytes: &'a [u8],
) -> Result<(ClientProgress, &'a [u8]), ItemFault>
    ensures { Gives (λ x. (x.0, x.1.now)) result (place_at clusters lines.now bytes.now) }
{
    let (cluster, rest) = number_at(bytes)?;
    judge(cluster < u64::from(clusters), bytes, Rule::Client)?;
    let (connection, rest) = number_within(rest, MOST_COUNT, Rule::Count)?;
    let (done, rest) = number_within(rest, lines.len() as u64, Rule::Client)?;
    let place = ClientProgress {
        cluster: cluster as u32,
        connection,
        done: done as usize,
    };
    Ok((place, rest))
}

#[tactic(auto, unfolding(crate::specs::Clients::tally_at))]
fn tally_at(bytes: &[u8]) -> Result<(Tally, &[u8]), ItemFault>
    ensures { Gives (λ x. (x.0, x.1.now)) result (tally_at bytes.now) }
{
    let (receipts, rest) = number_within(bytes, MOST_COUNT, Rule::Count)?;
    let (duplicates, rest) = number_within(rest, MOST_COUNT, Rule::Count)?;
    let (errors, rest) = number_within(rest, MOST_COUNT, Rule::Count)?;
    let tally = Tally {
        receipts,
        duplicates,
        errors,
    };
    Ok((tally, rest))
}

/// The identities of the messages that came.
fn got_at(alloc: Global, clusters: u32, bytes: &[u8]) -> Result<(Vec<Ident>, &[u8]), ItemFault>
    ensures { Gives (λ x. (x.0.items, x.1.now)) result (list_at (ident_at clusters) bytes.now) }
{
    let (count, rest) = number_at(bytes)?;
    counted_idents(alloc, clusters, count, rest)
}

/// So many identities.
fn counted_idents(
    alloc: Global,
    clusters: u32,
    count: u64,
    bytes: &[u8],
) -> Result<(Vec<Ident>, &[u8]), ItemFault>
    ensures { Gives (λ x. (x.0.items, x.1.now)) result (many (ident_at clusters) count [] bytes.now) }
{
    let mut idents: Vec<Ident> = Vec::new(alloc);
    let mut rest = bytes;
    for _ in 0..count {
        let (ident, after) = ident_at(alloc, clusters, rest)?;
        idents.push(ident)?;
        rest = after;
    }
    Ok((idents, rest))
}

#[tactic(auto, unfolding(crate::specs::Clients::ident_at))]
fn ident_at(alloc: Global, clusters: u32, bytes: &[u8]) -> Result<(Ident, &[u8]), ItemFault>
    ensures { (before : List Ident) → Gives (λ x. (x.0, x.1.now)) result (ident_at clusters before bytes.now) }
{
    let (origin, behind) = number_at(bytes)?;
    judge(origin < u64::from(clusters), bytes, Rule::Client)?;
    let (producer, rest) = text_at(behind)?;
    let Some(text) = utf8_text(producer) else {
        return Err(ItemFault::at(behind, Rule::Client));
    };
    let (seq, rest) = number_at(rest)?;
    let ident = Ident {
        origin: origin as u32,
        producer: ProducerName::any(alloc, text)?,
        seq,
    };
    Ok((ident, rest))
}

/// Bytes as a text; None exactly where they are none.
#[tactic(auto, using(crate::proofs::Utf8::is_text, crate::proofs::Utf8::no_text))]
fn utf8_text(bytes: &[u8]) -> Option<&str>
    ensures { MatchOption result (is_utf8 bytes.now ≡ false) (λ t. (t.now ≡ bytes.now) × (is_utf8 bytes.now ≡ true)) }
{
    match str::from_utf8(bytes) {
        Ok(text) => Some(text),
        Err(_) => None,
    }
}
