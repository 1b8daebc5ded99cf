// A table's cost entries replaced by the least sums over the ways to split their positions, in place (document 02, U7).

#![tactic(auto)]

ghost use Rattle.std.specs.Prelude.{◌≡◌, ℕ, ◌+◌, ◌≤◌, length};
ghost use Rattle.numbers.specs.Numbers.{entry_places, record_length};
ghost use Rattle.lent.specs.Bytes.{run};
ghost use Rattle.lent.specs.Over.{over};
ghost use Rattle.table.specs.Values.{unless, entries_of};
ghost use Rattle.closure.specs.Closure.{closed};
ghost use Rattle.normaliser.specs.Normaliser.{normalise_fault, normalised};

use numbers::{HEADER_LENGTH, RECORD_LENGTH};
use table::{Callback, Refusal};

// Writes the entries of a record anew, from byte `at` of it on.
fn put_closed(b: &mut [u8], at: usize, c: Callback)
    requires { (at + record_length ≤ length b.old) × (c.used ≤ entry_places) }
    ensures { b.new ≡ over b.old (at + 12) (run 2 (closed (entries_of c))) }
{
    let entries = closure::closed(c.entries, c.used);
    lent::put_all(b, at + 12, &entries[..c.used as usize]);
}

// Reads a table by all rules but 24 and replaces each of its m entries of each record; no other byte changes. A refusal leaves all bytes.
pub fn normalise(bytes: &mut [u8]) -> Result<(), Refusal>
    ensures { (result ≡ unless (normalise_fault bytes.old) tt) × (bytes.new ≡ normalised bytes.old) }
{
    let t = reader::read_by(bytes, false)?;
    for i in 0..t.count {
        put_closed(
            bytes,
            HEADER_LENGTH + RECORD_LENGTH * (i as usize),
            t.callbacks[i as usize],
        );
    }
    Ok(())
}
