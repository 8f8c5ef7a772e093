//! The backlogs of all brokers' subscriptions.
ghost use Rattle.std.specs.Prelude.{◌≡◌, ◌<◌, ℕ, [], false, length, true, OnOk};
ghost use Rattle.step_lines.specs.Backlogs.{SameOthers, TellsBacklogs, backlogs_of, known_at, wrote};

use crate::backlogs::Backlogs;
use broker::Broker;
use broker_state::Plan;
use geo_base::Memory;
use std::alloc::Global;
use std::marker::Model;

/// The backlogs at each broker, by the broker's number among all.
#[derive(Drop)]
pub struct BacklogRows {
    rows: Vec<Backlogs>,
}

impl Model for BacklogRows {
    ghost use Rattle.std.specs.Prelude.{List};
    ghost use Rattle.step_lines.specs.Backlogs.{KnownBacklogs};

    ghost Value = { List KnownBacklogs };

    ghost view = { λ r. r.rows.items };
}

impl BacklogRows {
    /// Nothing is known; takes no memory.
    pub(crate) fn new(alloc: Global) -> BacklogRows
        ensures { result ≡ [] }
    {
        BacklogRows {
            rows: Vec::new(alloc),
        }
    }

    /// The backlogs at the broker of a number, which is asked where they are not known.
    pub(crate) fn know(
        &mut self,
        alloc: Global,
        number: usize,
        broker: &Broker,
    ) -> Result<(), Memory>
        requires { TellsBacklogs (known_at self.old number) broker.now.broker }
        ensures has { OnOk result (number < length self.new) }
        ensures known { OnOk result (known_at self.new number ≡ record { is_known = true; counts = backlogs_of broker.now.broker }) }
        ensures others { SameOthers number self.old self.new }
    {
        self.reach(alloc, number)?;
        self.rows[number].know(broker)
    }

    /// Has a row for the broker of a number, and for each before it.
    #[tactic(auto, using(crate::proofs::Counting::one_row_more))]
    fn reach(&mut self, alloc: Global, number: usize) -> Result<(), Memory>
        ensures has { OnOk result (number < length self.new) }
        ensures same { (k : ℕ) → known_at self.new k ≡ known_at self.old k }
    {
        while self.rows.len() <= number {
            self.rows.push(Backlogs::new(alloc))?;
        }
        Ok(())
    }

    /// Those at the broker of a number that were asked or counted.
    pub(crate) fn counts(&self, number: usize) -> &[u64]
        requires { number < length self.now }
        ensures { result.now ≡ (known_at self.now number).counts }
    {
        self.rows[number].counts()
    }

    /// Counts on over an event that is prepared for the broker of a number.
    pub(crate) fn follow(
        &mut self,
        alloc: Global,
        number: usize,
        broker: &Broker,
        plan: &Plan,
    ) -> Result<(), Memory>
        requires has { number < length self.old }
        requires known { TellsBacklogs (known_at self.old number) broker.now.broker }
        ensures followed { (per : ℕ) → OnOk result (TellsBacklogs (known_at self.new number) (wrote per broker.now.broker plan.now)) }
        ensures others { SameOthers number self.old self.new }
    {
        self.rows[number].follow(alloc, broker, plan)
    }

    /// Those at the broker of a number are no more known.
    pub(crate) fn forget(&mut self, number: usize)
        requires { number < length self.old }
        ensures forgot { (known_at self.new number).is_known ≡ false }
        ensures others { SameOthers number self.old self.new }
    {
        self.rows[number].forget();
    }

    /// Nothing is known any more.
    pub(crate) fn forget_all(&mut self)
        ensures { self.new ≡ [] }
    {
        self.rows.clear();
    }
}
