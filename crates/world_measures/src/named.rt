//! Messages that are counted, and named where that is wanted.
ghost use Rattle.std.specs.Prelude.{◌≡◌, ◌<◌, ◌≤◌, ◌+◌, ◌^◌, ◌++◌, ◌∷◌, List, ℕ, Bool, [], OnErr, OnOk, decimal, take, length, string_bytes};
ghost use Rattle.geo_base.specs.declared.entry.Entry.{Entry};
ghost use Rattle.geo_base.specs.Report.{with_line_feeds};
ghost use Rattle.loss_laws.specs.LostLines.{name_line, named_lines, number_line};
ghost use Rattle.world_measures.specs.Named.{IsNamed, picked};

use geo_base::{Blob, ClusterName, Entry, Memory};
use report_lines::{add_ident, add_number};
use std::alloc::Global;
use std::marker::Model;

/// How many messages were counted, and their lines, unless numbers alone are wanted.
#[derive(Drop)]
pub(crate) struct Named {
    count: u64,
    names: bool,
    lines: Blob,
}

impl Model for Named {
    ghost use Rattle.world_measures.specs.Named.{NamedBook};

    ghost Value = { NamedBook };

    ghost view = { λ n. record { count = n.count; names = n.names; lines = n.lines } };
}

impl Named {
    /// None; takes no memory.
    pub(crate) fn none(alloc: Global, names: bool) -> Named
        ensures named { (clusters : List (List ℕ)) → IsNamed names clusters [] result }
        ensures count { result.count ≡ 0 }
    {
        Named {
            count: 0,
            names,
            lines: Blob::new(alloc),
        }
    }

    /// One more, if it is chosen.
    pub(crate) fn add_if(
        &mut self,
        is_chosen: bool,
        clusters: &[ClusterName],
        entry: &Entry,
    ) -> Result<(), Memory>
        requires { self.old.count + 1 < 2 ^ 64 }
        ensures ok { OnOk result ((names : Bool) (es : List Entry) → IsNamed names clusters.now es self.old → IsNamed names clusters.now (es ++ picked is_chosen entry.now) self.new) }
        ensures count { OnOk result (self.new.count ≤ self.old.count + 1) }
    {
        if !is_chosen {
            return Ok(());
        }
        self.count += 1;
        if self.names {
            add_name(&mut self.lines, clusters, entry)?;
        }
        Ok(())
    }
}

/// Appends the line of a message's identity.
fn add_name(lines: &mut Blob, clusters: &[ClusterName], entry: &Entry) -> Result<(), Memory>
    ensures { OnOk result (lines.new ≡ lines.old ++ (name_line clusters.now entry.now ++ 10 ∷ [])) }
{
    lines.append(b"  ")?;
    add_ident(lines, clusters, &entry.ident)?;
    lines.append(b"\n")
}

/// Appends what is counted, its number, and the messages' lines.
pub(crate) fn add_named(lines: &mut Blob, label: String, named: Named) -> Result<(), Memory>
    ensures { (names : Bool) (clusters : List (List ℕ)) (es : List Entry) → IsNamed names clusters es named
        → OnOk result (lines.new ≡ lines.old ++ with_line_feeds (named_lines names clusters (string_bytes label) es)) }
{
    let added = add_number_line(lines, label, named.count);
    let Named { lines: names, .. } = named;
    match added {
        Ok(()) => {
            let appended = lines.append(names.as_slice());
            drop(names);
            appended
        }
        Err(memory) => {
            drop(names);
            Err(memory)
        }
    }
}

/// Appends what is counted, and its number.
pub(crate) fn add_number_line(lines: &mut Blob, label: String, number: u64) -> Result<(), Memory>
    ensures { OnOk result (lines.new ≡ lines.old ++ (number_line (string_bytes label) number ++ 10 ∷ [])) }
{
    lines.append(label.as_bytes())?;
    drop(label);
    lines.append(b" ")?;
    add_number(lines, number)?;
    lines.append(b"\n")
}
