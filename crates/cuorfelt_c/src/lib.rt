// The static library for hosts written in C: the functions of the crate `cuorfelt`, each under its own name and with its own clauses, again since a crate is a
// library or a static one.
// include/cuorfelt.h declares what is exported here.

#![tactic(auto)]

ghost use Rattle.std.specs.Prelude.{◌≡◌, [], ◌∷◌, length};
ghost use Rattle.reader.specs.Format.{read_fault};
ghost use Rattle.writer.specs.Writer.{write_of, buffer_after};
ghost use Rattle.writer.specs.Described.{described};
ghost use Rattle.normaliser.specs.Normaliser.{normalise_fault, normalised};
ghost use Rattle.sheet.specs.Sheet.{sheet_of, row_of};
ghost use Rattle.layout.specs.Layout.{state_length};
ghost use Rattle.cuorfelt.specs.Edge.{start_fault, state_started, tick_reply, state_ticked};

use answers::Reply;
use sheet::Sheet;
use table::Refusal;
use writer::Written;

#[unsafe(no_mangle)]
pub extern "C" fn cuorfelt_state_length() -> usize
    ensures { result ≡ state_length }
{
    cuorfelt::cuorfelt_state_length()
}

#[unsafe(no_mangle)]
pub extern "C" fn cuorfelt_read(table: &[u8]) -> Refusal
    ensures { result ≡ read_fault table.now }
{
    cuorfelt::cuorfelt_read(table)
}

#[unsafe(no_mangle)]
pub extern "C" fn cuorfelt_normalise(table: &mut [u8]) -> Refusal
    ensures { (result ≡ normalise_fault table.old) × (table.new ≡ normalised table.old) }
{
    cuorfelt::cuorfelt_normalise(table)
}

#[unsafe(no_mangle)]
pub extern "C" fn cuorfelt_write(
    edition: u16,
    count: u16,
    budget: u16,
    period: u16,
    horizon: u16,
    delay: u16,
    records: &[u16],
    buffer: &mut [u8],
) -> Written
    ensures { (result ≡ write_of (described (edition ∷ count ∷ []) (budget ∷ period ∷ horizon ∷ delay ∷ []) records.now) (length buffer.old)) × (buffer.new ≡ buffer_after (described (edition ∷ count ∷ []) (budget ∷ period ∷ horizon ∷ delay ∷ []) records.now) buffer.old) }
{
    cuorfelt::cuorfelt_write(
        edition, count, budget, period, horizon, delay, records, buffer,
    )
}

#[unsafe(no_mangle)]
pub extern "C" fn cuorfelt_analyse(table: &[u8], row: &mut [u16]) -> Sheet
    ensures { (result ≡ sheet_of table.now (length row.old)) × (row.new ≡ row_of table.now row.old) }
{
    cuorfelt::cuorfelt_analyse(table, row)
}

#[unsafe(no_mangle)]
pub extern "C" fn cuorfelt_start(table: &[u8], state: &mut [u8]) -> Refusal
    ensures { (result ≡ start_fault table.now state.old) × (state.new ≡ state_started table.now state.old) }
{
    cuorfelt::cuorfelt_start(table, state)
}

#[unsafe(no_mangle)]
pub extern "C" fn cuorfelt_tick(state: &mut [u8], mask: u16, supplied: u8, cost: u32) -> Reply
    ensures { (result ≡ tick_reply state.old mask supplied cost) × (state.new ≡ state_ticked state.old mask supplied cost) }
{
    cuorfelt::cuorfelt_tick(state, mask, supplied, cost)
}
