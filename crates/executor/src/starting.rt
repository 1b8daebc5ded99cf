// A machine from a table's bytes.

ghost use Rattle.std.specs.Prelude.{◌≡◌};
ghost use Rattle.table.specs.Values.{unless};
ghost use Rattle.executor.specs.State.{fresh};
ghost use Rattle.executor.specs.Start.{start_of};

use super::Machine;
use table::{Refusal, Table};

// The fresh state of a table: no tick taken, and nothing waits, runs, is cached or has finished.
pub fn fresh(t: Table) -> Machine
    ensures { result ≡ fresh t }
{
    Machine {
        table: t,
        waiting: [0; 16],
        finished: [0; 16],
        cache: 0,
        running: 0,
        units: 0,
        clock: 0,
    }
}

impl Machine {
    // The fresh state of the table that the bytes hold, or the refusal.
    pub fn start(bytes: &[u8]) -> Result<Machine, Refusal>
        ensures { result ≡ unless (start_of bytes.now).refusal (start_of bytes.now).machine }
    {
        reader::read(bytes).map(fresh)
    }
}
