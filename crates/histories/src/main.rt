// Runs histories and prints what the machine says, a line for each tick.
// Standard input: for each history the table's length in two bytes, its bytes, the number of ticks in four, then seven bytes for each tick: mask in two,
// supplied in one, cost in four, little-endian. A refused start prints `refused`, number, index. A tick prints its place from 0, the
// answer's number, callback, instance, whether one started, whether it polled and how many it took; or its place, `refused`, number, index.

#![tactic(auto)]

use answers::Answer;
use executor::{Machine, Ticked};
use table::Refusal;

// A line of a refusal: its number and its index. Not that of `report`, which says whether all was written: nobody asks here, and what they share is a line.
fn print_refusal(r: Refusal) {
    frames::print(b"refused");
    frames::print_fields(&[r.number, r.index]);
    frames::print(b"\n");
}

// The answer's number, its callback and its instance: numbers of the program's own, which agree with those of a reply.
fn print_answer(answer: Answer) {
    let (number, callback, instance) = match answer {
        Answer::NoSupply => (1, 0, 0),
        Answer::Idle => (2, 0, 0),
        Answer::Ran(i, k) => (3, i, k),
        Answer::Finished(i, k) => (4, i, k),
    };
    frames::print_fields(&[number, u32::from(callback), instance]);
}

// The line of a tick at a place.
fn print_tick(place: u32, ticked: Ticked) {
    frames::print_number(place);
    match ticked.outcome {
        Err(r) => {
            frames::print(b" ");
            print_refusal(r);
        }
        Ok(a) => {
            print_answer(a);
            frames::print_fields(&[ticked.started, ticked.polled]);
            frames::print_fields(&[u16::from(ticked.gathered), ticked.folded]);
            frames::print(b"\n");
        }
    }
}

// The machine of a table of that length on standard input, or of as many bytes as are left. A refusal is printed, and the state that is zero
// throughout goes on.
fn read_start(length: u16) -> Machine {
    let mut buffer = io::large_buffer();
    let bytes = frames::read_up_to(&mut buffer[..usize::from(length)]);
    match Machine::start(bytes) {
        Ok(machine) => machine,
        Err(refusal) => {
            print_refusal(refusal);
            executor::starting::fresh(table::blank())
        }
    }
}

// So many ticks of a history on standard input, as far as they are there.
fn run_ticks(start: Machine, count: u32) {
    let mut machine = start;
    for place in 0..count {
        let Some(tick) = frames::read::<7>() else {
            return;
        };
        let [m0, m1, supplied, c0, c1, c2, c3] = tick;
        let mask = u16::from_le_bytes([m0, m1]);
        let cost = u32::from_le_bytes([c0, c1, c2, c3]);
        let ticked = machine.tick(mask, supplied != 0, cost);
        print_tick(place, ticked);
        machine = ticked.machine;
    }
}

// Runs the next history; None where there is none.
fn history() -> Option<()> {
    let length = u16::from_le_bytes(frames::read::<2>()?);
    let machine = read_start(length);
    let count = u32::from_le_bytes(frames::read::<4>()?);
    run_ticks(machine, count);
    Some(())
}

fn main() {
    for _ in 0..frames::MOST {
        if history().is_none() {
            return;
        }
    }
}
