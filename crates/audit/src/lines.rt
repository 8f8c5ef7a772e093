//! The rules of lines.
ghost use Rattle.std.specs.Prelude.{ℕ, ◌≡◌, ◌<◌, ◌+◌, ◌==◌, None, Some, Ok, Err, length, IfOk, OnOk};
ghost use Rattle.geo_base.specs.Audit.{act_refused, refused};
ghost use Rattle.geo_base.specs.Mirror.{mirror_at};
ghost use Rattle.geo_base.specs.Setup.{Setup};
ghost use Rattle.geo_base.specs.TraceItems.{Begins};
ghost use Rattle.script_rows.specs.NameWords.{cut_by};
ghost use Rattle.trace_lines.specs.Lines.{item_read};
ghost use Rattle.trace_lines.specs.Said.{act_said, item_said};
ghost use Rattle.audit.specs.AuditOf.{item_refused, lines_audited, may_come, names_of, told_if};
ghost use Rattle.audit.specs.Numbers.{AreSized, IsActOf, IsItemOf};
ghost use Rattle.audit.specs.Strict.{act_gaps, gaps, refused_by};
ghost use Rattle.audit.specs.declared.strictness.Strictness.TheVariants as strictness;
ghost use Rattle.audit.specs.declared.strictness.Strictness.{Strictness};
ghost use Rattle.audit.specs.declared.fault.AuditFault.TheVariants as fault;

use crate::acks::{Acked, unless_broken};
use crate::fault::AuditFault;
use crate::mirrors::{AllMirrors, At, number_of};
use crate::rule::Rule;
use crate::strictness::Strictness;
use geo_base::Memory;
use script_rows::cut_at;
use script_text::Scenario;
use std::alloc::Global;
use trace_lines::{Line, Names, Written, begun_event, line_of};

/// Whether a line may come where so many events have begun: a write stands after an event.
fn may_come(events: u64, line: &Line) -> bool
    ensures { result ≡ may_come events (item_said line.now) }
{
    match line {
        Line::Begins(_) => true,
        Line::Writes { .. } => events > 0,
    }
}

/// Whether a number is the next one after so many events.
#[tactic(auto, using(crate::proofs::Judging::next_above, crate::proofs::Judging::not_next))]
fn is_next(events: u64, number: u64) -> bool
    ensures { result ≡ (number == events + 1) }
{
    number > events && number - events == 1
}

impl AllMirrors {
    /// The lowest rule that the beginning of an event breaks: it has the next number.
    fn event_refused(&self, number: u64) -> Option<u32>
        ensures { (k : Strictness) (s : Setup) → result ≡ refused_by k s self.now (Begins number) }
    {
        unless_broken(Rule::Form, is_next(self.events(), number))
    }

    /// The lowest rule that a write breaks.
    fn write_refused(
        &mut self,
        alloc: Global,
        scenario: &Scenario,
        at: At,
        written: &Written,
    ) -> Result<Option<u32>, Memory>
        requires sized { AreSized scenario.now.setup self.old }
        requires topic { at.topic < length scenario.now.setup.topics }
        requires cluster { at.cluster < length scenario.now.setup.clusters }
        requires numbers { IsActOf scenario.now.setup (act_said written.now) }
        ensures same { self.new ≡ self.old }
        ensures refused { IfOk result (λ refused. refused ≡ act_refused scenario.now.setup self.old at.topic at.cluster (mirror_at scenario.now.setup self.old at.topic at.cluster) (act_said written.now)) }
    {
        let number = number_of(scenario, at.topic, at.cluster);
        match written {
            Written::Appends {
                position,
                entry,
                by,
            } => self.append_refused(alloc, scenario, at, position, entry, by),
            Written::Creates { sub, .. } => Ok(self.topics()[number].create_refused(sub)),
            Written::Deletes { sub } => Ok(self.topics()[number].delete_refused(sub)),
            Written::Acks { sub, ranges, cause } => {
                let acked = Acked { sub, ranges, cause };
                self.acks_refused(alloc, number, at.cluster, acked)
            }
            Written::Seeks { sub, index } => Ok(self.topics()[number].seek_refused(sub, *index)),
        }
    }

    /// The rule that a write breaks where gaps are judged, and no other rule is broken.
    fn write_gaps(
        &mut self,
        scenario: &Scenario,
        at: At,
        written: &Written,
    ) -> Result<Option<u32>, Memory>
        requires sized { AreSized scenario.now.setup self.old }
        requires topic { at.topic < length scenario.now.setup.topics }
        requires cluster { at.cluster < length scenario.now.setup.clusters }
        requires numbers { IsActOf scenario.now.setup (act_said written.now) }
        ensures same { self.new ≡ self.old }
        ensures gaps { IfOk result (λ rule. rule ≡ act_gaps scenario.now.setup self.old at.topic at.cluster (act_said written.now)) }
    {
        match written {
            Written::Appends { entry, .. } => {
                Ok(unless_broken(Rule::Gap, self.may_follow(scenario, at, entry)?))
            }
            Written::Creates { .. }
            | Written::Deletes { .. }
            | Written::Acks { .. }
            | Written::Seeks { .. } => Ok(None),
        }
    }

    /// The rule that a line breaks where gaps are judged, and no other rule is broken.
    fn gaps(&mut self, scenario: &Scenario, line: &Line) -> Result<Option<u32>, Memory>
        requires sized { AreSized scenario.now.setup self.old }
        requires numbers { IsItemOf scenario.now.setup (item_said line.now) }
        ensures same { self.new ≡ self.old }
        ensures gaps { IfOk result (λ rule. rule ≡ gaps scenario.now.setup self.old (item_said line.now)) }
    {
        match line {
            Line::Begins(_) => Ok(None),
            Line::Writes {
                topic,
                cluster,
                written,
            } => {
                let at = At {
                    topic: *topic,
                    cluster: *cluster,
                };
                self.write_gaps(scenario, at, written)
            }
        }
    }

    /// The lowest rule that a line breaks, by how strictly it is judged.
    #[tactic(auto, using(crate::proofs::Judging::broken_by, crate::proofs::Judging::gap_by, crate::proofs::Judging::plain_by))]
    fn refused_by(
        &mut self,
        alloc: Global,
        scenario: &Scenario,
        strictness: Strictness,
        line: &Line,
    ) -> Result<Option<u32>, Memory>
        requires sized { AreSized scenario.now.setup self.old }
        requires numbers { IsItemOf scenario.now.setup (item_said line.now) }
        ensures same { self.new ≡ self.old }
        ensures refused { IfOk result (λ rule. rule ≡ item_refused strictness scenario.now.setup self.old (Some (item_said line.now))) }
    {
        let refused = self.refused(alloc, scenario, line)?;
        if refused.is_some() {
            return Ok(refused);
        }
        match strictness {
            Strictness::Plain => Ok(None),
            Strictness::Whole => self.gaps(scenario, line),
        }
    }

    /// The lowest rule of the plain ones that a line breaks.
    fn refused(
        &mut self,
        alloc: Global,
        scenario: &Scenario,
        line: &Line,
    ) -> Result<Option<u32>, Memory>
        requires sized { AreSized scenario.now.setup self.old }
        requires numbers { IsItemOf scenario.now.setup (item_said line.now) }
        ensures same { self.new ≡ self.old }
        ensures refused { IfOk result (λ rule. rule ≡ item_refused strictness.Plain scenario.now.setup self.old (Some (item_said line.now))) }
    {
        if !may_come(self.events(), line) {
            return Ok(Some(Rule::Form.number()));
        }
        match line {
            Line::Begins(number) => Ok(self.event_refused(*number)),
            Line::Writes {
                topic,
                cluster,
                written,
            } => {
                let at = At {
                    topic: *topic,
                    cluster: *cluster,
                };
                self.write_refused(alloc, scenario, at, written)
            }
        }
    }

    /// An event begins, where it has the next number.
    fn begin_next(&mut self, number: u64) -> Result<(), AuditFault>
        ensures accepted { (k : Strictness) (s : Setup) → OnOk result (item_refused k s self.old (Some (Begins number)) ≡ None) }
        ensures told { (s : Setup) → OnOk result (self.new ≡ told_if s self.old (Some (Begins number))) }
        ensures rule { (k : Strictness) (s : Setup) (event rule : ℕ) → result ≡ Err (fault.Rule event rule) → item_refused k s self.old (Some (Begins number)) ≡ Some rule }
        ensures event { (event rule : ℕ) → result ≡ Err (fault.Rule event rule) → event ≡ self.old.events }
    {
        match self.event_refused(number) {
            None => {
                self.begin(number);
                Ok(())
            }
            Some(rule) => Err(AuditFault::Rule {
                event: self.events(),
                rule,
            }),
        }
    }

    /// Whether a line may be told. A fault of a rule comes exactly where one refuses it, with the last event and the lowest such rule.
    fn accept(
        &mut self,
        alloc: Global,
        scenario: &Scenario,
        strictness: Strictness,
        line: &Line,
    ) -> Result<(), AuditFault>
        requires sized { AreSized scenario.now.setup self.old }
        requires numbers { IsItemOf scenario.now.setup (item_said line.now) }
        ensures same { self.new ≡ self.old }
        ensures accepted { OnOk result (item_refused strictness scenario.now.setup self.old (Some (item_said line.now)) ≡ None) }
        ensures rule { (event rule : ℕ) → result ≡ Err (fault.Rule event rule) → item_refused strictness scenario.now.setup self.old (Some (item_said line.now)) ≡ Some rule }
        ensures event { (event rule : ℕ) → result ≡ Err (fault.Rule event rule) → event ≡ self.old.events }
    {
        let event = self.events();
        match self.refused_by(alloc, scenario, strictness, line)? {
            None => Ok(()),
            Some(rule) => Err(AuditFault::Rule { event, rule }),
        }
    }

    /// Reads a line: where no rule refuses it, what it tells is done. A fault of a rule comes exactly where one does, with the last
    /// event and the lowest such rule.
    pub(crate) fn read(
        &mut self,
        alloc: Global,
        scenario: &Scenario,
        strictness: Strictness,
        names: &Names<'_>,
        line: &[u8],
    ) -> Result<(), AuditFault>
        requires sized { AreSized scenario.now.setup self.old }
        requires names { names.now ≡ names_of scenario.now.setup }
        ensures accepted { OnOk result (item_refused strictness scenario.now.setup self.old (item_read names.now line.now) ≡ None) }
        ensures told { OnOk result (self.new ≡ told_if scenario.now.setup self.old (item_read names.now line.now)) }
        ensures rule { (event rule : ℕ) → result ≡ Err (fault.Rule event rule) → item_refused strictness scenario.now.setup self.old (item_read names.now line.now) ≡ Some rule }
        ensures event { (event rule : ℕ) → result ≡ Err (fault.Rule event rule) → event ≡ self.old.events }
    {
        if let Some(number) = begun_event(line) {
            return self.begin_next(number);
        }
        let event = self.events();
        let Some(line) = line_of(alloc, names, line)? else {
            return Err(Rule::Form.broken_after(event));
        };
        self.take(alloc, scenario, strictness, line)
    }

    /// Where no rule refuses a line, what it tells is done. A fault of a rule comes exactly where one does, with the last event and the
    /// lowest such rule.
    #[tactic(auto, using(crate::proofs::Judging::plainly_told))]
    fn take(
        &mut self,
        alloc: Global,
        scenario: &Scenario,
        strictness: Strictness,
        line: Line,
    ) -> Result<(), AuditFault>
        requires sized { AreSized scenario.now.setup self.old }
        requires numbers { IsItemOf scenario.now.setup (item_said line) }
        ensures accepted { OnOk result (item_refused strictness scenario.now.setup self.old (Some (item_said line)) ≡ None) }
        ensures told { OnOk result (self.new ≡ told_if scenario.now.setup self.old (Some (item_said line))) }
        ensures rule { (event rule : ℕ) → result ≡ Err (fault.Rule event rule) → item_refused strictness scenario.now.setup self.old (Some (item_said line)) ≡ Some rule }
        ensures event { (event rule : ℕ) → result ≡ Err (fault.Rule event rule) → event ≡ self.old.events }
    {
        match self.accept(alloc, scenario, strictness, &line) {
            Ok(()) => {
                self.tell(alloc, scenario, line)?;
                Ok(())
            }
            Err(fault) => {
                drop(line);
                Err(fault)
            }
        }
    }

    /// Reads all lines of a text: how many events have begun, where no rule refuses one. A fault of a rule comes exactly where one
    /// does, with the last event before the first such line and the lowest rule that refuses it. What stands after the last line feed
    /// is a line only where there is a byte, and has no form.
    pub(crate) fn read_all(
        &mut self,
        alloc: Global,
        scenario: &Scenario,
        strictness: Strictness,
        names: &Names<'_>,
        lines: &[u8],
    ) -> Result<u64, AuditFault>
        requires sized { AreSized scenario.now.setup self.old }
        requires names { names.now ≡ names_of scenario.now.setup }
        ensures audited { IfOk result (λ events. lines_audited strictness scenario.now.setup self.old (cut_by 10 lines.now) ≡ Ok events) }
        ensures refused { (event rule : ℕ) → result ≡ Err (fault.Rule event rule) → lines_audited strictness scenario.now.setup self.old (cut_by 10 lines.now) ≡ Err (record { event = event; rule = rule }) }
    {
        let mut rest = lines;
        while let Some((line, behind)) = cut_at(rest, b'\n') {
            self.read(alloc, scenario, strictness, names, line)?;
            rest = behind;
        }
        let event = self.events();
        if rest.is_empty() {
            Ok(event)
        } else {
            Err(Rule::Form.broken_after(event))
        }
    }
}
