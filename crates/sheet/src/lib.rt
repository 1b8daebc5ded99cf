// The sheet of document 01: the analyser, its refusals and the lent row.

#![tactic(auto)]

ghost use Rattle.std.specs.Prelude.{◌≡◌, ℕ, ◌≤◌, length};
ghost use Rattle.lent.specs.Over.{over};
ghost use Rattle.masks.specs.Parts.{some_index};
ghost use Rattle.numbers.specs.Numbers.{places, longest};
ghost use Rattle.rules.specs.Parts.{Sound};
ghost use Rattle.windows.specs.Bounds.{window_of};
ghost use Rattle.windows.specs.Parts.{Spaced};
ghost use Rattle.table.specs.Values.{unless};
ghost use Rattle.reader.specs.Format.{table_at};
ghost use Rattle.sheet.specs.Sheet.{bounds_to, too_many_at, sheet_fault, analysis_fault, sheet_of, row_of};
ghost use Rattle.sheet.specs.Parts.{crowded_by, told, table_row};

use numbers::{MOST_WAITING, PLACES};
use table::{Callback, Refusal, Row, Table};
use windows::Chained;

// What the analyser returns, as C has it: the window, 0 where refused, and the refusal. `sheet_of`, which the theorems name, speaks of it.
#[repr(C)]
#[derive(Clone, Copy)]
pub struct Sheet {
    pub window: u16,
    pub refusal: Refusal,
}

// The window, or 0 beside the refusal.
impl From<Result<u16, Refusal>> for Sheet {
    ghost from_gives = { λ r s. s ≡ told r };

    fn from(found: Result<u16, Refusal>) -> Self {
        match found {
            Ok(window) => Sheet {
                window,
                refusal: table::refused(0, 0),
            },
            Err(refusal) => Sheet { window: 0, refusal },
        }
    }
}

// Whether a slot is the head of its chain and more of its instances arrive in a window of that many ticks than may wait.
#[tactic(auto, unfolding(crate::specs::Parts::crowded_by))]
fn is_crowded(c: Callback, slot: u8, head: u8, window: u32) -> bool
    requires { (head ≡ slot → Spaced c) × (window ≤ longest) }
    ensures { result ≡ crowded_by c slot head window }
{
    head == slot && windows::arrivals(c, window) > MOST_WAITING as u32
}

// The lowest crowded head of a window, as an index.
fn first_crowded(t: &Chained, window: u32) -> Option<u8>
    requires { window ≤ longest }
    ensures { result ≡ some_index (too_many_at t.now.table window) }
{
    for i in 0..t.table.count {
        let head = t.heads[i as usize];
        if is_crowded(t.table.callbacks[i as usize], i, head, window) {
            return Some(i + 1);
        }
    }
    None
}

// Writes the bounds of slots 0 to count - 1 into the row's first places and keeps the others.
fn write_bounds(t: &Chained, window: u32, row: &mut [u16])
    requires { (window ≡ window_of t.now.table) × (window ≤ longest) × (places ≤ length row.old) }
    ensures { row.new ≡ over row.old 0 (bounds_to t.now.table t.now.table.count) }
{
    for i in 0..t.table.count as usize {
        row[i] = levels::bound(t, i, window) as u16;
    }
}

// The bounds of a table that the reader accepted go into the row, unless it is refused with 15 or 16; gives the window.
fn bounded(t: Table, row: &mut [u16]) -> Result<u16, Refusal>
    requires { Sound t × (places ≤ length row.old) }
    ensures { (result ≡ unless (sheet_fault t) (window_of t)) × (row.new ≡ table_row t row.old) }
{
    let t = Chained::of(t);
    let Some(window) = levels::window(&t) else {
        return Err(Row::NoWindow.at(0));
    };
    if let Some(crowded) = first_crowded(&t, window) {
        return Err(Row::TooMany.at(crowded));
    }
    write_bounds(&t, window, row);
    Ok(window as u16)
}

// The window of a table's bytes. Bounds 1 to n go into the row's first n places, and no other place is touched; at a refusal none is.
fn analysed(bytes: &[u8], row: &mut [u16]) -> Result<u16, Refusal>
    ensures { (result ≡ unless (analysis_fault bytes.now (length row.old)) (window_of (table_at bytes.now))) × (row.new ≡ row_of bytes.now row.old) }
{
    if row.len() < PLACES as usize {
        return Err(Row::ShortRow.at(0));
    }
    bounded(reader::read(bytes)?, row)
}

// The analyser: the sheet of a table's bytes, as the C interface has it, and the row.
pub fn analyse(bytes: &[u8], row: &mut [u16]) -> Sheet
    ensures { (result ≡ sheet_of bytes.now (length row.old)) × (row.new ≡ row_of bytes.now row.old) }
{
    Sheet::from(analysed(bytes, row))
}
