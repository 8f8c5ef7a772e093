//! How a prepared event becomes of a broker's state. Nothing here takes memory or can fail.
ghost use Rattle.std.specs.Prelude.{◌≡◌, ◌≤◌, ◌+◌, map};
ghost use Rattle.geo_base.specs.Plan.{all_changed, all_written, done};
ghost use Rattle.broker_subs.specs.Table.{names_of, room_at, sub_at};
ghost use Rattle.broker_state.specs.Fits.{AllChangesFit, AllWritesFit, ChangesNamed, PlanFits, SameShape, WritesNamed, all_names_after};
ghost use Rattle.broker_state.specs.Plan.{IsEmptyPlan, name_of, plan_in};
ghost use Rattle.broker_state.specs.Room.{ChangesHaveRoom, HasRoom, WritesHaveRoom, all_room_left, replicators_of, total};
ghost use Rattle.broker_state.specs.Writes.{machine_change, machine_write};

use crate::change::StateChange;
use crate::plan::Plan;
use crate::state::BrokerState;
use crate::write::StateWrite;
use std::collections::VecDeque;

impl BrokerState {
    /// Does what was prepared: its durable writes in order, and then its changes in memory. The plan is empty then.
    pub fn commit(&mut self, plan: &mut Plan)
        requires room { HasRoom self.old.room plan.old }
        requires fits { PlanFits self.old.site.per_ledger self.old.broker plan.old }
        ensures broker { self.new.broker ≡ done self.old.site.per_ledger self.old.broker (plan_in self.old.broker plan.old) }
        ensures site { self.new.site ≡ self.old.site }
        ensures shape { SameShape self.old.broker self.new.broker }
        ensures empty { IsEmptyPlan plan.new }
    {
        self.write_all(plan.sub, &mut plan.writes);
        self.change_all(plan.sub, &mut plan.changes);
        plan.clear();
    }

    fn write_all(&mut self, sub_index: usize, writes: &mut VecDeque<StateWrite>)
        requires named { WritesNamed (name_of self.old.broker.subs sub_index writes.old.items) sub_index (names_of self.old.broker.subs) writes.old.items }
        requires fits { AllWritesFit self.old.site.per_ledger (name_of self.old.broker.subs sub_index writes.old.items) self.old.broker.entries sub_index self.old.broker writes.old.items }
        requires room { WritesHaveRoom self.old.room sub_index writes.old.items }
        ensures broker { self.new.broker ≡ all_written self.old.site.per_ledger self.old.broker (map (machine_write (name_of self.old.broker.subs sub_index writes.old.items) self.old.broker.entries) writes.old.items) }
        ensures names { names_of self.new.broker.subs ≡ all_names_after sub_index (names_of self.old.broker.subs) writes.old.items }
        ensures given { all_room_left (room_at self.old.room.subs sub_index).room writes.old.items ≤ (room_at self.new.room.subs sub_index).room }
        ensures replicators { self.old.room.replicators ≤ self.new.room.replicators + total replicators_of writes.old.items }
        ensures site { self.new.site ≡ self.old.site }
        ensures shape { SameShape self.old.broker self.new.broker }
    {
        while let Some(write) = writes.pop_front() {
            self.write(sub_index, write);
        }
    }

    /// The changes are of the subscription whose name stands at the place.
    fn change_all(&mut self, sub_index: usize, changes: &mut VecDeque<StateChange>)
        requires named { ChangesNamed (sub_at self.old.broker.subs sub_index).name sub_index (names_of self.old.broker.subs) changes.old.items }
        requires fits { AllChangesFit (sub_at self.old.broker.subs sub_index).name sub_index self.old.broker changes.old.items }
        requires room { ChangesHaveRoom self.old.room sub_index changes.old.items }
        ensures broker { self.new.broker ≡ all_changed self.old.broker (map (machine_change (sub_at self.old.broker.subs sub_index).name) changes.old.items) }
        ensures site { self.new.site ≡ self.old.site }
        ensures shape { SameShape self.old.broker self.new.broker }
    {
        while let Some(change) = changes.pop_front() {
            self.change(sub_index, change);
        }
    }
}
