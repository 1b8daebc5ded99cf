// The edge for hosts written in C: reader, writer, normaliser, analyser and machine on numbers and lent slices, the machine's state packed in lent bytes.
// The crate `cuorfelt_c` exports them for C.

#![tactic(auto)]

ghost use Rattle.std.specs.Prelude.{◌≡◌, [], ◌∷◌, ℕ, length};
ghost use Rattle.reader.specs.Format.{read_fault};
ghost use Rattle.writer.specs.Writer.{write_of, buffer_after};
ghost use Rattle.writer.specs.Described.{described};
ghost use Rattle.normaliser.specs.Normaliser.{normalise_fault, normalised};
ghost use Rattle.sheet.specs.Sheet.{sheet_of, row_of};
ghost use Rattle.layout.specs.Layout.{state_length};
ghost use Rattle.cuorfelt.specs.Edge.{start_fault, state_started, no_state, tick_reply, state_ticked};

use answers::Reply;
use layout::offsets::STATE_LENGTH;
use sheet::Sheet;
use table::{Refusal, Row};
use writer::Written;

// The length of a state in bytes.
#[unsafe(no_mangle)]
pub extern "C" fn cuorfelt_state_length() -> usize
    ensures { result ≡ state_length }
{
    STATE_LENGTH
}

// The refusal of a table's bytes, or number 0.
#[unsafe(no_mangle)]
pub extern "C" fn cuorfelt_read(table: &[u8]) -> Refusal
    ensures { result ≡ read_fault table.now }
{
    table::refusal_of(reader::read(table))
}

// Replaces the cost entries of a table, read by all rules but 24, by the least sums over the ways to split their positions: number 0, or the
// refusal, which leaves all bytes as they were.
#[unsafe(no_mangle)]
pub extern "C" fn cuorfelt_normalise(table: &mut [u8]) -> Refusal
    ensures { (result ≡ normalise_fault table.old) × (table.new ≡ normalised table.old) }
{
    table::refusal_of(normaliser::normalise(table))
}

// Writes a table into the buffer from its header's numbers and from the records' numbers, fourteen each: its length, or the refusal, which
// leaves the buffer as it was. What stands past the table is kept.
#[unsafe(no_mangle)]
pub extern "C" fn cuorfelt_write(
    edition: u16,
    count: u16,
    budget: u16,
    period: u16,
    horizon: u16,
    delay: u16,
    records: &[u16],
    buffer: &mut [u8],
) -> Written
    ensures { (result ≡ write_of (described (edition ∷ count ∷ []) (budget ∷ period ∷ horizon ∷ delay ∷ []) records.now) (length buffer.old)) × (buffer.new ≡ buffer_after (described (edition ∷ count ∷ []) (budget ∷ period ∷ horizon ∷ delay ∷ []) records.now) buffer.old) }
{
    writer::described::write(
        edition, count, budget, period, horizon, delay, records, buffer,
    )
}

// The window of a table, and its bounds 1 to n in the first n places of the row; the other places are kept, and all of them
// where it is refused.
#[unsafe(no_mangle)]
pub extern "C" fn cuorfelt_analyse(table: &[u8], row: &mut [u16]) -> Sheet
    ensures { (result ≡ sheet_of table.now (length row.old)) × (row.new ≡ row_of table.now row.old) }
{
    sheet::analyse(table, row)
}

// Starts a machine in the lent bytes: the fresh state of the table, or the refusal, which leaves them as they were.
#[unsafe(no_mangle)]
pub extern "C" fn cuorfelt_start(table: &[u8], state: &mut [u8]) -> Refusal
    ensures { (result ≡ start_fault table.now state.old) × (state.new ≡ state_started table.now state.old) }
{
    if state.len() != STATE_LENGTH {
        return Row::FaultyState.at(0);
    }
    if let Err(why) = executor::Machine::start(table) {
        return why;
    }
    lent::copy(state, 0, table);
    let end = table.len();
    lent::zero(state, end, STATE_LENGTH - end);
    table::refused(0, 0)
}

// The reply of a tick where the lent bytes are not laid out as a state.
fn no_state() -> Reply
    ensures { result ≡ no_state }
{
    Reply::new(Err(Row::FaultyState.at(0)), false, false, 0, 0)
}

// One tick on the state in the lent bytes; a refusal leaves them as they were. Supplied is 0, or anything else.
#[unsafe(no_mangle)]
pub extern "C" fn cuorfelt_tick(state: &mut [u8], mask: u16, supplied: u8, cost: u32) -> Reply
    ensures { (result ≡ tick_reply state.old mask supplied cost) × (state.new ≡ state_ticked state.old mask supplied cost) }
{
    let Some(m) = layout::unpack(&*state) else {
        return no_state();
    };
    let x = m.tick_checked(mask, supplied != 0, cost);
    if x.outcome.is_ok() {
        layout::pack_tail(state, x.machine);
    }
    Reply::new(x.outcome, x.started, x.polled, x.gathered, x.folded)
}
