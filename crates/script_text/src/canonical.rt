//! The text that writes what a script declares.
ghost use Rattle.std.specs.Prelude.{◌≡◌, [], ◌∷◌, ◌++◌, Ok, IfOk, OnOk, codes};
ghost use Rattle.std.specs.Fmt.{decimal};
ghost use Rattle.geo_base.specs.Setup.{Setup};
ghost use Rattle.script_rows.specs.NameBytes.{name_at};
ghost use Rattle.script_rows.specs.Written.{key_word, targets_word};
ghost use Rattle.script_text.specs.Canonical.{all_lines_text, chance_text, clients_text, declarations_text, declared_alone, head_word, ident_words, kind_word, ledger_text, line_words, lines_text, names_text, pushed, replication_word, start_word};
ghost use Rattle.script_text.specs.Naming.{names_of};
ghost use Rattle.script_text.specs.Rules.{script_of};

use crate::chance::Chance;
use crate::client::ClientDecl;
use crate::scenario::Scenario;
use geo_base::limits::LEDGER_ENTRIES;
use geo_base::{Blob, Ident, Line, Memory, Name, SubKind, Targets, Text};
use script_rows::{NameTable, Names, list_word, number_word};
use std::alloc::Global;

/// Writes what a script declares: its one text without skipped lines and without events. The `ledger` line is left out where a
/// ledger takes as many entries as without it. What is written reads back the same.
pub fn write_declarations(alloc: Global, scenario: &Scenario) -> Result<Blob, Memory>
    ensures text { IfOk result (λ text. text ≡ declarations_text scenario.now.setup scenario.now.chance) }
    ensures back { IfOk result (λ text. script_of text
        ≡ Ok (declared_alone scenario.now.setup scenario.now.chance)) }
{
    let names = scenario.names(alloc)?;
    let text = written(alloc, &names, scenario);
    // by a call, so that the end of names is proved once
    drop(names);
    text
}

/// The text, by the names of the script.
fn written(alloc: Global, names: &Names<'_>, scenario: &Scenario) -> Result<Blob, Memory>
    requires { names.now ≡ names_of scenario.now.setup }
    ensures { IfOk result (λ text. text ≡ declarations_text scenario.now.setup scenario.now.chance) }
{
    let mut out = Blob::from_slice(alloc, b"geo 1\n")?;
    match write_rows(alloc, &mut out, names, scenario) {
        Ok(()) => Ok(out),
        Err(Memory) => {
            drop(out);
            Err(Memory)
        }
    }
}

/// All rows after the first.
#[tactic(auto, using(crate::proofs::Written::all_written))]
fn write_rows(
    alloc: Global,
    out: &mut Blob,
    names: &Names<'_>,
    scenario: &Scenario,
) -> Result<(), Memory>
    requires names { names.now ≡ names_of scenario.now.setup }
    requires begun { out.old ≡ codes "geo 1\n" }
    ensures { OnOk result (out.new ≡ declarations_text scenario.now.setup scenario.now.chance) }
{
    write_ledger(alloc, out, scenario.per_ledger())?;
    write_chance(alloc, out, scenario.chance())?;
    write_names(out, b"cluster", scenario.clusters())?;
    write_names(out, b"topic", scenario.topics())?;
    write_clients(out, names, scenario.clients())?;
    write_all_lines(alloc, out, names.clusters(), scenario.clients())?;
    Ok(())
}

/// A word after a space.
fn push_word(out: &mut Blob, word: &[u8]) -> Result<(), Memory>
    ensures { OnOk result (out.new ≡ out.old ++ 32 ∷ word.now) }
{
    out.append(b" ")?;
    out.append(word)
}

/// A number after a space.
fn push_number(alloc: Global, out: &mut Blob, number: u64) -> Result<(), Memory>
    ensures { OnOk result (out.new ≡ out.old ++ 32 ∷ decimal number) }
{
    let word = number_word(alloc, number)?;
    push_word(out, word.as_slice())
}

/// `ledger N`
#[tactic(auto, using(crate::proofs::Written::row_is, crate::proofs::Written::nothing))]
fn write_ledger(alloc: Global, out: &mut Blob, entries: u64) -> Result<(), Memory>
    ensures { OnOk result (out.new ≡ out.old ++ ledger_text entries) }
{
    if entries == LEDGER_ENTRIES {
        return Ok(());
    }
    out.append(b"ledger")?;
    push_number(alloc, out, entries)?;
    out.append(b"\n")
}

/// `chance NUMBER LOST TWICE RESTART`
#[tactic(auto, using(crate::proofs::Written::row_is, crate::proofs::Written::nothing))]
fn write_chance(alloc: Global, out: &mut Blob, chance: Option<Chance>) -> Result<(), Memory>
    ensures { OnOk result (out.new ≡ out.old ++ chance_text chance) }
{
    let Some(chance) = chance else {
        return Ok(());
    };
    out.append(b"chance")?;
    push_number(alloc, out, u64::from(chance.number))?;
    push_number(alloc, out, u64::from(chance.lost))?;
    push_number(alloc, out, u64::from(chance.twice))?;
    push_number(alloc, out, u64::from(chance.restart))?;
    out.append(b"\n")
}

/// A line for each name.
#[tactic(auto, using(crate::proofs::Written::name_then))]
fn write_names<K>(out: &mut Blob, head: &[u8], names: &[Name<K>]) -> Result<(), Memory>
    ensures { OnOk result (out.new ≡ out.old ++ names_text head.now names.now) }
{
    for name in names {
        out.append(head)?;
        push_word(out, name.as_str().as_bytes())?;
        out.append(b"\n")?;
    }
    Ok(())
}

/// `client C T X` for each client.
#[tactic(auto, using(crate::proofs::Written::client_then))]
fn write_clients(out: &mut Blob, names: &Names<'_>, clients: &[ClientDecl]) -> Result<(), Memory>
    ensures { OnOk result (out.new ≡ out.old ++ clients_text names.now.clusters names.now.topics clients.now) }
{
    for client in clients {
        write_client(out, names, client)?;
    }
    Ok(())
}

/// `client C T X`
fn write_client(out: &mut Blob, names: &Names<'_>, client: &ClientDecl) -> Result<(), Memory>
    ensures { OnOk result (out.new ≡ pushed (out.old ++ codes "client")
        (client.now.name ∷ name_at names.now.topics client.now.topic
        ∷ name_at names.now.clusters client.now.cluster ∷ []) ++ 10 ∷ []) }
{
    out.append(b"client")?;
    push_word(out, client.name().as_bytes())?;
    push_word(out, names.topics().name(client.topic() as usize))?;
    push_word(out, names.clusters().name(client.cluster() as usize))?;
    out.append(b"\n")
}

/// The lines of each client.
#[tactic(auto, using(crate::proofs::Written::lines_then))]
fn write_all_lines(
    alloc: Global,
    out: &mut Blob,
    clusters: &NameTable<'_>,
    clients: &[ClientDecl],
) -> Result<(), Memory>
    ensures { OnOk result (out.new ≡ out.old ++ all_lines_text clusters.now clients.now) }
{
    for client in clients {
        write_lines(alloc, out, clusters, client)?;
    }
    Ok(())
}

/// `do C ..` for each line of a client.
#[tactic(auto, using(crate::proofs::Written::line_then))]
fn write_lines(
    alloc: Global,
    out: &mut Blob,
    clusters: &NameTable<'_>,
    client: &ClientDecl,
) -> Result<(), Memory>
    ensures { OnOk result (out.new ≡ out.old ++ lines_text clusters.now client.now.name client.now.lines) }
{
    for line in client.lines() {
        out.append(b"do")?;
        push_word(out, client.name().as_bytes())?;
        push_line(alloc, out, clusters, line)?;
        out.append(b"\n")?;
    }
    Ok(())
}

/// The words of a client's line.
fn push_line(
    alloc: Global,
    out: &mut Blob,
    clusters: &NameTable<'_>,
    line: &Line,
) -> Result<(), Memory>
    ensures { OnOk result (out.new ≡ pushed out.old (line_words clusters.now line.now)) }
{
    push_word(out, head_word(line))?;
    match line {
        Line::Pub { seq, to, key, text } => {
            push_number(alloc, out, *seq)?;
            push_targets(alloc, out, clusters, *to)?;
            push_content(out, key, text)
        }
        Line::Sub {
            sub,
            kind,
            earliest,
            replicated,
        } => {
            push_word(out, sub.as_bytes())?;
            push_choices(out, *kind, *earliest, *replicated)
        }
        Line::Flow { permits } => push_number(alloc, out, u64::from(*permits)),
        Line::Ack { ident } | Line::AckTo { ident } => push_ident(alloc, out, clusters, ident),
        Line::Move { cluster } => push_word(out, clusters.name(*cluster as usize)),
        Line::Produce
        | Line::AckAll
        | Line::Unsub
        | Line::Close
        | Line::CloseProducer
        | Line::Ping => Ok(()),
    }
}

/// `KEY TEXT`
fn push_content(out: &mut Blob, key: &Option<Text>, text: &Blob) -> Result<(), Memory>
    ensures { OnOk result (out.new ≡ pushed out.old (key_word key.now ∷ text.now ∷ [])) }
{
    push_word(out, key_word(key))?;
    push_word(out, text.as_slice())
}

/// `KIND INIT REPL`
fn push_choices(
    out: &mut Blob,
    kind: SubKind,
    earliest: bool,
    replicated: bool,
) -> Result<(), Memory>
    ensures { OnOk result (out.new
        ≡ pushed out.old (kind_word kind ∷ start_word earliest ∷ replication_word replicated ∷ [])) }
{
    push_word(out, kind_word(kind))?;
    push_word(out, start_word(earliest))?;
    push_word(out, replication_word(replicated))
}

/// `X P SEQ`
fn push_ident(
    alloc: Global,
    out: &mut Blob,
    clusters: &NameTable<'_>,
    ident: &Ident,
) -> Result<(), Memory>
    ensures { OnOk result (out.new ≡ pushed out.old (ident_words clusters.now ident.now)) }
{
    push_word(out, clusters.name(ident.origin as usize))?;
    push_word(out, ident.producer.as_bytes())?;
    push_number(alloc, out, ident.seq)
}

/// `*`, or the names of clusters in their order with commas between them
fn push_targets(
    alloc: Global,
    out: &mut Blob,
    clusters: &NameTable<'_>,
    to: Targets,
) -> Result<(), Memory>
    ensures { OnOk result (out.new ≡ out.old ++ 32 ∷ targets_word clusters.now to) }
{
    match to {
        Targets::All => push_word(out, b"*"),
        Targets::Only(mask) => {
            let word = list_word(alloc, clusters, mask)?;
            push_word(out, word.as_slice())
        }
    }
}

fn head_word(line: &Line) -> &'static [u8]
    ensures { result.now ≡ head_word line.now }
{
    match line {
        Line::Produce => b"produce",
        Line::Pub { .. } => b"pub",
        Line::Sub { .. } => b"sub",
        Line::Flow { .. } => b"flow",
        Line::Ack { .. } => b"ack",
        Line::AckTo { .. } => b"ackto",
        Line::AckAll => b"ackall",
        Line::Unsub => b"unsub",
        Line::Close => b"close",
        Line::CloseProducer => b"closep",
        Line::Ping => b"ping",
        Line::Move { .. } => b"move",
    }
}

fn key_word(key: &Option<Text>) -> &[u8]
    ensures { result.now ≡ key_word key.now }
{
    match key {
        Some(key) => key.as_bytes(),
        None => b"-",
    }
}

fn kind_word(kind: SubKind) -> &'static [u8]
    ensures { result.now ≡ kind_word kind }
{
    match kind {
        SubKind::Exclusive => b"exclusive",
        SubKind::Shared => b"shared",
        SubKind::Failover => b"failover",
        SubKind::KeyShared => b"keyshared",
    }
}

fn start_word(earliest: bool) -> &'static [u8]
    ensures { result.now ≡ start_word earliest }
{
    if earliest { b"earliest" } else { b"latest" }
}

fn replication_word(replicated: bool) -> &'static [u8]
    ensures { result.now ≡ replication_word replicated }
{
    if replicated { b"replicated" } else { b"local" }
}
