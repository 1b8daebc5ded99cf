// Writes tables described on standard input, each into a buffer of bytes of 170, and prints for each a line: the table's length, and the number and the
// callback index of its refusal; then, where the buffer has changed, all of its bytes.
// Each table stands in a frame, as numbers of two bytes: the buffer's length, the six of the header, those of the records; one that is not there is 0.
// A buffer longer than a frame may be ends the list.

#![tactic(auto)]

ghost use Rattle.std.specs.Prelude.{◌≤◌, length};

use frames::LONGEST;

// What a buffer is filled with.
const FILLING: u8 = 170;

// The numbers of a frame, over the zeros in `room`: seven at least, those before the records', of which the ones that it has not are 0.
fn unpack<'a>(frame: &[u8], room: &'a mut [u16; 512]) -> &'a [u16]
    requires { length frame.now ≤ 1024 }
    ensures { (7 ≤ length result.now) × (length result.now ≤ 512) }
{
    frames::numbers(frame, 7, room)
}

// Writes what a frame describes and reports on it; None where its buffer is too long.
fn write(frame: &[u8]) -> Option<()>
    requires { length frame.now ≤ 1024 }
{
    let mut zeros = [0; 512];
    let &[
        room,
        edition,
        count,
        budget,
        period,
        horizon,
        delay,
        ref records @ ..,
    ] = unpack(frame, &mut zeros)
    else {
        return None;
    };
    let room = usize::from(room);
    if room > LONGEST {
        return None;
    }
    let mut buffer = [FILLING; LONGEST];
    let buffer = &mut buffer[..room];
    let w = writer::described::write(
        edition, count, budget, period, horizon, delay, records, buffer,
    );
    frames::print_number(w.length);
    frames::print_fields(&[w.number, w.index]);
    if buffer.iter().any(|&x| x != FILLING) {
        frames::print_fields(buffer);
    }
    frames::print(b"\n");
    Some(())
}

fn main() {
    frames::each(|frame| write(frame));
}
