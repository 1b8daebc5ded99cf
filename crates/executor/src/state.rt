// What row 29 of the refusals asks of a state, its table apart.

ghost use Rattle.std.specs.Prelude.{◌≡◌, Bool};
ghost use Rattle.executor.specs.State.{state_fault};

use super::Machine;
use faults::{run_fault, slots_fault};

impl Machine {
    // The faults of the state around its table.
    pub(crate) fn state_fault(self) -> bool
        ensures { result ≡ state_fault self }
    {
        run_fault(self.table.count, self.running, self.units)
            || slots_fault(
                self.table,
                self.cache,
                self.running,
                self.waiting,
                self.finished,
                self.clock,
            )
    }
}
