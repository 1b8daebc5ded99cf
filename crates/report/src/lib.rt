// What the programs `bounds` and `normalise` do, and the status with which they end: here the sheet of a table as lines on standard output,
// in `rewrite` a table with its cost entries normalised.
// What is read and written no contract can say; what it is written from is the analyser's sheet.

#![tactic(auto)]

mod input;
pub mod rewrite;

ghost use Rattle.std.specs.Prelude.{◌≡◌, ◌≤◌};
ghost use Rattle.numbers.specs.Numbers.{places};
ghost use Rattle.sheet.specs.Sheet.{sheet_of};
ghost use Rattle.report.specs.Status.{status_by, status_of, failed, Ends};

use sheet::Sheet;
use std::io::Stdin;
use table::Refusal;

// The descriptors that are written to.
const STDOUT_FILENO: i32 = 1;

const STDERR_FILENO: i32 = 2;

// How a program ends: all that was asked for was written; a refusal; or input could not be read or output not be written. Numbers and no enum, since
// the C interface hands them out, and `status` and both `conclude` promise them.
pub const WHOLE: u8 = 0;

pub const REFUSED: u8 = 1;

pub const FAILED: u8 = 2;

// What the analyser returned, and whether all of it was written. No Result, since `report` promises the sheet also where it was not written; and no type in
// common with `Rewritten`, since the clauses of both name their fields.
#[derive(Clone, Copy)]
pub struct Printed {
    pub sheet: Sheet,
    pub written: bool,
}

// A line of two numbers, parted by a space; whether it was written. Printed by the kit's functions, here and below, and not by `Display`: that would need a
// `fmt::Write` over the descriptor as well, and its `fmt` the same calls.
fn print_pair(a: u64, b: u64) -> bool {
    io::print_decimal(STDOUT_FILENO, a)
        && io::write_all(STDOUT_FILENO, b" ")
        && io::print_decimal(STDOUT_FILENO, b)
        && io::write_all(STDOUT_FILENO, b"\n")
}

// The line of a refusal: its number and its index behind the word `refused`. The one of `histories` says nothing of what was written.
fn print_refusal(r: Refusal) -> bool {
    io::write_all(STDOUT_FILENO, b"refused ") && print_pair(r.number.into(), r.index.into())
}

fn print_window(window: u16) -> bool {
    io::write_all(STDOUT_FILENO, b"window ")
        && io::print_decimal(STDOUT_FILENO, window.into())
        && io::write_all(STDOUT_FILENO, b"\n")
}

// A line for each bound: index and bound. A bound is at least 1, so that the first 0 ends the row: a sheet, as C has it, does not say how many there are.
fn print_bounds(row: &[u16]) -> bool {
    row.iter()
        .take_while(|bound| **bound != 0)
        .zip(1..)
        .all(|(bound, i)| print_pair(i, u64::from(*bound)))
}

// The window and the bounds, or the refusal alone. A sheet, as C has it, says by the number whether there is one; so does the clause of `status_by`.
fn print_sheet(found: Sheet, row: &[u16]) -> bool {
    if found.refusal.number != 0 {
        return print_refusal(found.refusal);
    }
    print_window(found.window) && print_bounds(row)
}

// Prints the sheet of a table given as bytes.
pub fn report(bytes: &[u8]) -> Printed
    ensures { result.sheet ≡ sheet_of bytes.now places }
{
    let mut row = [0; 16];
    let sheet = sheet::analyse(bytes, &mut row);
    let written = print_sheet(sheet, &row);
    Printed { sheet, written }
}

// The status by whether all was written, and by the refusal.
fn status_by(written: bool, refusal: Refusal) -> u8
    ensures { result ≡ status_by written refusal }
{
    if !written {
        FAILED
    } else if refusal.number != 0 {
        REFUSED
    } else {
        WHOLE
    }
}

// The status of a program that printed this.
pub fn status(printed: Printed) -> u8
    ensures { result ≡ status_of printed }
{
    status_by(printed.written, printed.sheet.refusal)
}

// A word on standard error and the status that goes with it. Both `conclude` share this alone: one function in their place would have to take the words, what
// prints and what that promises, which is longer than the two.
fn fail(words: &[u8]) -> u8
    ensures { result ≡ failed }
{
    io::write_all(STDERR_FILENO, words);
    FAILED
}

// The program `bounds` once its input was read, as bytes and whether a read failed behind them: prints their sheet and gives the status to end
// with, FAILED after a word on standard error. A flag beside the bytes and no Result, since `Ends` has both.
pub fn conclude(bytes: &[u8], unread: bool) -> u8
    ensures { Ends bytes.now unread result }
{
    if unread {
        return fail(b"bounds: standard input cannot be read\n");
    }
    let printed = report(bytes);
    if !printed.written {
        return fail(b"bounds: standard output cannot be written\n");
    }
    status(printed)
}

// The program `bounds` as a function: reads standard input, prints and gives the status to end with.
// Only with the handle of standard input can a read that failed be told from the input's end; it takes no bytes, so that a host in C passes nothing.
#[unsafe(no_mangle)]
pub extern "C" fn cuorfelt_bounds(input: Stdin) -> u8
    ensures { result ≤ failed }
{
    input::on_input(
        input,
        |bytes, unread|
            ensures { result ≤ failed }
        { conclude(bytes, unread) },
    )
}
