//! Settlements.

ghost use Rattle.std.specs.Prelude.{◌≡◌, ◌↔◌, ◌≤◌, length, IsNone, IfSome, IfNone};
ghost use Rattle.request_state.specs.Core.{core_of};
ghost use Rattle.request_state.specs.Settling.{Settles};

use crate::state::State;

impl<'a> State<'a> {
    /// Makes the next settlement, and answers its number, from 0. `None` exactly where all are made. The tasks that wait
    /// for its resource become runnable, in ascending order.
    pub fn settle(&mut self) -> Option<u32>
        ensures exactly { IsNone result ↔ (length self.old.plan.outcomes.now ≤ self.old.settled) }
        ensures none { IfNone result (core_of self.new ≡ core_of self.old) }
        ensures settled { IfSome result (λ number. (number ≡ self.old.settled)
            × Settles self.old.plan.outcomes.now (core_of self.old) (core_of self.new)) }
        ensures plan { self.new.plan ≡ self.old.plan }
    {
        if self.settled >= self.plan.outcomes.len() {
            return None;
        }
        let number = self.settled;
        if let Some(name) = self.plan.outcomes.name_at(number) {
            self.tasks.settle(name);
        }
        self.settled = number + 1;
        Some(number)
    }
}
