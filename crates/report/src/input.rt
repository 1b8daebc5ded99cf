// Standard input, with a read that failed told from the end of the input, and what a program does on it.

ghost use Rattle.std.specs.Prelude.{◌≤◌, length, ℕ, Bool};
ghost use Rattle.report.specs.Status.{failed};
ghost use Rattle.std.specs.Result.{IfOk};

use std::io::{Read, Result, Stdin};

// Reads until the buffer is full or the input ends, and returns how many bytes; the error where a read fails.
// A `while`, since only the system says how far a turn goes; the library's `read_exact` takes an input that ends early for an error.
pub fn read_all(mut input: Stdin, buf: &mut [u8]) -> Result<usize>
    ensures { IfOk result (λ n. n ≤ length buf.old) }
{
    let mut done = 0;
    while done < buf.len() {
        let more = input.read(&mut buf[done..])?;
        if more == 0 {
            break;
        }
        done += more;
    }
    Ok(done)
}

// What a program does once its input was read, as bytes and whether a read failed, as both `conclude` take them: gives the status to end with.
// No table has more than 528 bytes. An input that fills the buffer has more, and is refused by its first bytes and its length, as all of it would be.
pub fn on_input<F: FnOnce(&mut [u8], bool) -> u8>(input: Stdin, conclude: F) -> u8
    requires callable { F.IsAlwaysCallable conclude }
    requires status { (bytes after : _) (unread : Bool) (r : ℕ) → F.post conclude bytes unread r after → r ≤ failed }
    ensures { result ≤ failed }
{
    let mut buffer = [0; 1024];
    let read = read_all(input, &mut buffer);
    let unread = read.is_err();
    conclude(&mut buffer[..read.unwrap_or(0)], unread)
}
