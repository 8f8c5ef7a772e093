//! Lines that a report has few of.
ghost use Rattle.std.specs.Prelude.{◌≡◌, ◌++◌, ◌∷◌, [], length, codes, decimal, string_bytes, take, IfOk, OnErr, OnOk};
ghost use Rattle.geo_base.specs.Report.{shown_kind, shown_replicated, shown_seeks, shown_state, words};

use crate::words::{add_number, shown_done, shown_kind, shown_replicated, shown_state};
use geo_base::{Blob, Memory, ReplicatorState, SubKind};
use std::alloc::Global;

/// What a subscription's line shows of it. `mark` is its mark-delete, `backlog` counts messages, `seeks` how often it was sought.
#[derive(Clone, Copy, Drop)]
pub struct SubShown {
    pub kind: SubKind,
    pub is_replicated: bool,
    pub mark: u64,
    pub backlog: u64,
    pub seeks: u64,
}

/// What a client has done of its lines, and what came: receipts, receipts of duplicates, errors.
#[derive(Clone, Copy, Drop)]
pub struct ClientCounts {
    pub done: usize,
    pub lines: usize,
    pub receipts: u64,
    pub duplicates: u64,
    pub errors: u64,
}

/// Appends the counts of a run.
pub fn add_head_line(lines: &mut Blob, events: u64, idle: u64, rounds: u64) -> Result<(), Memory>
    ensures ok { OnOk result (lines.new ≡ lines.old ++ (words (codes "events" ∷ decimal events ∷ codes "idle" ∷ decimal idle ∷ codes "rounds" ∷ decimal rounds ∷ []) ++ 10 ∷ [])) }
    ensures err { OnErr result (take (length lines.old) lines.new ≡ lines.old) }
{
    lines.append(b"events ")?;
    add_number(lines, events)?;
    lines.append(b" idle ")?;
    add_number(lines, idle)?;
    lines.append(b" rounds ")?;
    add_number(lines, rounds)?;
    lines.append(b"\n")
}

/// Appends the line of a topic at a cluster.
pub fn add_place_line(lines: &mut Blob, topic: &str, cluster: &str) -> Result<(), Memory>
    ensures ok { OnOk result (lines.new ≡ lines.old ++ (words (codes "topic" ∷ topic.now ∷ codes "at" ∷ cluster.now ∷ []) ++ 10 ∷ [])) }
    ensures err { OnErr result (take (length lines.old) lines.new ≡ lines.old) }
{
    lines.append(b"topic ")?;
    lines.append(topic.as_bytes())?;
    lines.append(b" at ")?;
    lines.append(cluster.as_bytes())?;
    lines.append(b"\n")
}

/// Appends the line of the replicator to a cluster.
pub fn add_replicator_line(
    lines: &mut Blob,
    name: &str,
    session: u64,
    state: ReplicatorState,
    mark: u64,
) -> Result<(), Memory>
    ensures ok { OnOk result (lines.new ≡ lines.old ++ (words (codes "sender" ∷ name.now ∷ codes "session" ∷ decimal session ∷ shown_state state ∷ codes "mark" ∷ decimal mark ∷ []) ++ 10 ∷ [])) }
    ensures err { OnErr result (take (length lines.old) lines.new ≡ lines.old) }
{
    add_word(lines, b"sender ", name.as_bytes())?;
    add_counted(lines, b" session ", session)?;
    add_word(lines, b" ", shown_state(state).as_bytes())?;
    add_counted(lines, b" mark ", mark)?;
    lines.append(b"\n")
}

/// Appends a word after a label.
fn add_word(lines: &mut Blob, label: &[u8], word: &[u8]) -> Result<(), Memory>
    ensures ok { OnOk result (lines.new ≡ lines.old ++ (label.now ++ word.now)) }
    ensures err { OnErr result (take (length lines.old) lines.new ≡ lines.old) }
{
    lines.append(label)?;
    lines.append(word)
}

/// Appends a number after a label.
fn add_counted(lines: &mut Blob, label: &[u8], number: u64) -> Result<(), Memory>
    ensures ok { OnOk result (lines.new ≡ lines.old ++ (label.now ++ decimal number)) }
    ensures err { OnErr result (take (length lines.old) lines.new ≡ lines.old) }
{
    lines.append(label)?;
    add_number(lines, number)
}

/// Appends the line of a subscription; its seeks are shown where there were any.
pub fn add_sub_line(lines: &mut Blob, name: &str, sub: &SubShown) -> Result<(), Memory>
    ensures ok { OnOk result (lines.new ≡ lines.old ++ (words (codes "sub" ∷ name.now ∷ shown_kind sub.now.kind ∷ shown_replicated sub.now.is_replicated
        ∷ codes "mark" ∷ decimal sub.now.mark ∷ codes "backlog" ∷ decimal sub.now.backlog ∷ shown_seeks sub.now.seeks) ++ 10 ∷ [])) }
    ensures err { OnErr result (take (length lines.old) lines.new ≡ lines.old) }
{
    if sub.seeks > 0 {
        add_sought_line(lines, name, sub)
    } else {
        add_unsought_line(lines, name, sub)
    }
}

fn add_unsought_line(lines: &mut Blob, name: &str, sub: &SubShown) -> Result<(), Memory>
    ensures ok { OnOk result (lines.new ≡ lines.old ++ (words (codes "sub" ∷ name.now ∷ shown_kind sub.now.kind ∷ shown_replicated sub.now.is_replicated
        ∷ codes "mark" ∷ decimal sub.now.mark ∷ codes "backlog" ∷ decimal sub.now.backlog ∷ []) ++ 10 ∷ [])) }
    ensures err { OnErr result (take (length lines.old) lines.new ≡ lines.old) }
{
    add_sub_words(lines, name, sub)?;
    add_counted(lines, b" mark ", sub.mark)?;
    add_counted(lines, b" backlog ", sub.backlog)?;
    lines.append(b"\n")
}

fn add_sought_line(lines: &mut Blob, name: &str, sub: &SubShown) -> Result<(), Memory>
    ensures ok { OnOk result (lines.new ≡ lines.old ++ (words (codes "sub" ∷ name.now ∷ shown_kind sub.now.kind ∷ shown_replicated sub.now.is_replicated
        ∷ codes "mark" ∷ decimal sub.now.mark ∷ codes "backlog" ∷ decimal sub.now.backlog ∷ codes "seeks" ∷ decimal sub.now.seeks ∷ []) ++ 10 ∷ [])) }
    ensures err { OnErr result (take (length lines.old) lines.new ≡ lines.old) }
{
    add_sub_words(lines, name, sub)?;
    add_counted(lines, b" mark ", sub.mark)?;
    add_counted(lines, b" backlog ", sub.backlog)?;
    add_counted(lines, b" seeks ", sub.seeks)?;
    lines.append(b"\n")
}

/// Appends what of a subscription's line is no number.
fn add_sub_words(lines: &mut Blob, name: &str, sub: &SubShown) -> Result<(), Memory>
    ensures ok { OnOk result (lines.new ≡ lines.old ++ words (codes "sub" ∷ name.now ∷ shown_kind sub.now.kind ∷ shown_replicated sub.now.is_replicated ∷ [])) }
    ensures err { OnErr result (take (length lines.old) lines.new ≡ lines.old) }
{
    add_word(lines, b"sub ", name.as_bytes())?;
    add_word(lines, b" ", shown_kind(sub.kind).as_bytes())?;
    add_word(lines, b" ", shown_replicated(sub.is_replicated).as_bytes())
}

/// Appends the line of a client at its cluster.
pub fn add_client_line(
    lines: &mut Blob,
    name: &str,
    cluster: &str,
    counts: &ClientCounts,
) -> Result<(), Memory>
    ensures ok { OnOk result (lines.new ≡ lines.old ++ (words (codes "client" ∷ name.now ∷ codes "at" ∷ cluster.now ∷ codes "lines" ∷ (decimal counts.now.done ++ (47 ∷ decimal counts.now.lines))
        ∷ codes "receipts" ∷ decimal counts.now.receipts ∷ codes "duplicates" ∷ decimal counts.now.duplicates ∷ codes "errors" ∷ decimal counts.now.errors ∷ []) ++ 10 ∷ [])) }
    ensures err { OnErr result (take (length lines.old) lines.new ≡ lines.old) }
{
    add_client_words(lines, name, cluster, counts)?;
    add_received(lines, counts)?;
    lines.append(b"\n")
}

/// Appends how much came to a client.
fn add_received(lines: &mut Blob, counts: &ClientCounts) -> Result<(), Memory>
    ensures ok { OnOk result (lines.new ≡ lines.old ++ (codes " receipts " ++ (decimal counts.now.receipts ++ (codes " duplicates " ++ (decimal counts.now.duplicates ++ (codes " errors " ++ decimal counts.now.errors)))))) }
    ensures err { OnErr result (take (length lines.old) lines.new ≡ lines.old) }
{
    add_counted(lines, b" receipts ", counts.receipts)?;
    add_counted(lines, b" duplicates ", counts.duplicates)?;
    add_counted(lines, b" errors ", counts.errors)
}

/// Appends a client's name, cluster, and how many of its lines are done.
fn add_client_words(
    lines: &mut Blob,
    name: &str,
    cluster: &str,
    counts: &ClientCounts,
) -> Result<(), Memory>
    ensures ok { OnOk result (lines.new ≡ lines.old ++ words (codes "client" ∷ name.now ∷ codes "at" ∷ cluster.now ∷ codes "lines" ∷ (decimal counts.now.done ++ (47 ∷ decimal counts.now.lines)) ∷ [])) }
    ensures err { OnErr result (take (length lines.old) lines.new ≡ lines.old) }
{
    add_word(lines, b"client ", name.as_bytes())?;
    add_word(lines, b" at ", cluster.as_bytes())?;
    add_counted(lines, b" lines ", counts.done as u64)?;
    add_counted(lines, b"/", counts.lines as u64)
}

/// The counts of a run.
pub fn head_line(alloc: Global, events: u64, idle: u64, rounds: u64) -> Result<String, Memory>
    ensures { IfOk result (λ line. string_bytes line ≡ words (codes "events" ∷ decimal events ∷ codes "idle" ∷ decimal idle ∷ codes "rounds" ∷ decimal rounds ∷ []) ++ 10 ∷ []) }
{
    Ok(format!(in alloc; "events {events} idle {idle} rounds {rounds}\n")?)
}

/// A topic at a cluster.
pub fn place_line(alloc: Global, topic: &str, cluster: &str) -> Result<String, Memory>
    ensures { IfOk result (λ line. string_bytes line ≡ words (codes "topic" ∷ topic.now ∷ codes "at" ∷ cluster.now ∷ []) ++ 10 ∷ []) }
{
    Ok(format!(in alloc; "topic {topic} at {cluster}\n")?)
}

/// The replicator to a cluster.
pub fn replicator_line(
    alloc: Global,
    name: &str,
    session: u64,
    state: ReplicatorState,
    mark: u64,
) -> Result<String, Memory>
    ensures { IfOk result (λ line. string_bytes line ≡ words (codes "sender" ∷ name.now ∷ codes "session" ∷ decimal session ∷ shown_state state ∷ codes "mark" ∷ decimal mark ∷ []) ++ 10 ∷ []) }
{
    let state = shown_state(state);
    Ok(format!(in alloc; "sender {name} session {session} {state} mark {mark}\n")?)
}

/// A subscription; its seeks are shown where there were any.
pub fn sub_line(alloc: Global, name: &str, sub: &SubShown) -> Result<String, Memory>
    ensures { IfOk result (λ line. string_bytes line ≡ words (codes "sub" ∷ name.now ∷ shown_kind sub.now.kind ∷ shown_replicated sub.now.is_replicated
        ∷ codes "mark" ∷ decimal sub.now.mark ∷ codes "backlog" ∷ decimal sub.now.backlog ∷ shown_seeks sub.now.seeks) ++ 10 ∷ []) }
{
    if sub.seeks > 0 {
        sought_line(alloc, name, sub)
    } else {
        unsought_line(alloc, name, sub)
    }
}

fn unsought_line(alloc: Global, name: &str, sub: &SubShown) -> Result<String, Memory>
    ensures { IfOk result (λ line. string_bytes line ≡ words (codes "sub" ∷ name.now ∷ shown_kind sub.now.kind ∷ shown_replicated sub.now.is_replicated
        ∷ codes "mark" ∷ decimal sub.now.mark ∷ codes "backlog" ∷ decimal sub.now.backlog ∷ []) ++ 10 ∷ []) }
{
    let kind = shown_kind(sub.kind);
    let replicated = shown_replicated(sub.is_replicated);
    let mark = sub.mark;
    let backlog = sub.backlog;
    Ok(format!(in alloc; "sub {name} {kind} {replicated} mark {mark} backlog {backlog}\n")?)
}

fn sought_line(alloc: Global, name: &str, sub: &SubShown) -> Result<String, Memory>
    ensures { IfOk result (λ line. string_bytes line ≡ words (codes "sub" ∷ name.now ∷ shown_kind sub.now.kind ∷ shown_replicated sub.now.is_replicated
        ∷ codes "mark" ∷ decimal sub.now.mark ∷ codes "backlog" ∷ decimal sub.now.backlog ∷ codes "seeks" ∷ decimal sub.now.seeks ∷ []) ++ 10 ∷ []) }
{
    let kind = shown_kind(sub.kind);
    let replicated = shown_replicated(sub.is_replicated);
    let mark = sub.mark;
    let backlog = sub.backlog;
    let seeks = sub.seeks;
    Ok(format!(in alloc;
        "sub {name} {kind} {replicated} mark {mark} backlog {backlog} seeks {seeks}\n"
    )?)
}

/// A client at its cluster.
pub fn client_line(
    alloc: Global,
    name: &str,
    cluster: &str,
    counts: &ClientCounts,
) -> Result<String, Memory>
    ensures { IfOk result (λ line. string_bytes line ≡ words (codes "client" ∷ name.now ∷ codes "at" ∷ cluster.now ∷ codes "lines" ∷ (decimal counts.now.done ++ (47 ∷ decimal counts.now.lines))
        ∷ codes "receipts" ∷ decimal counts.now.receipts ∷ codes "duplicates" ∷ decimal counts.now.duplicates ∷ codes "errors" ∷ decimal counts.now.errors ∷ []) ++ 10 ∷ []) }
{
    let done = shown_done(alloc, counts.done, counts.lines)?;
    let receipts = counts.receipts;
    let duplicates = counts.duplicates;
    let errors = counts.errors;
    Ok(format!(in alloc;
        "client {name} at {cluster} lines {done} receipts {receipts} duplicates {duplicates} errors {errors}\n"
    )?)
}
