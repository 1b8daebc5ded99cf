// A table with its cost entries normalised (document 02, U7) on standard output, and the status of a program that writes it.
// What is read and written no contract can say; what it is written from are the bytes as the normaliser leaves them.

ghost use Rattle.std.specs.Prelude.{◌≡◌, ◌≤◌};
ghost use Rattle.normaliser.specs.Normaliser.{normalise_fault, normalised};
ghost use Rattle.report.specs.Status.{failed};
ghost use Rattle.report.specs.Rewrite.{Rewrites};

use crate::{STDOUT_FILENO, fail, input, print_refusal, status_by};
use std::io::Stdin;
use table::Refusal;

// What the normaliser returned, and whether all was written that follows from it. No Result, since `rewrite` promises the refusal also where its line was
// not written.
#[derive(Clone, Copy)]
pub struct Rewritten {
    pub refusal: Refusal,
    pub written: bool,
}

// Normalises a table given as bytes, in place, and writes it, or the line of its refusal alone.
pub fn rewrite(bytes: &mut [u8]) -> Rewritten
    ensures { (result.refusal ≡ normalise_fault bytes.old) × (bytes.new ≡ normalised bytes.old) }
{
    let normalised = normaliser::normalise(bytes);
    let refusal = table::refusal_of(normalised);
    let written = match normalised {
        Ok(()) => io::write_all(STDOUT_FILENO, bytes),
        Err(refusal) => print_refusal(refusal),
    };
    Rewritten { refusal, written }
}

// The program `normalise` once its input was read, as bytes and whether a read failed behind them: writes the table or its refusal and gives the
// status to end with, FAILED after a word on standard error. A flag beside the bytes and no Result, since `Rewrites` has both.
pub fn conclude(bytes: &mut [u8], unread: bool) -> u8
    ensures { Rewrites bytes.old unread bytes.new result }
{
    if unread {
        return fail(b"normalise: standard input cannot be read\n");
    }
    let done = rewrite(bytes);
    if !done.written {
        return fail(b"normalise: standard output cannot be written\n");
    }
    status_by(done.written, done.refusal)
}

// The program `normalise` as a function: reads standard input, writes and gives the status to end with.
#[unsafe(no_mangle)]
pub extern "C" fn cuorfelt_normalise_program(input: Stdin) -> u8
    ensures { result ≤ failed }
{
    input::on_input(
        input,
        |bytes, unread|
            ensures { result ≤ failed }
        { conclude(bytes, unread) },
    )
}
