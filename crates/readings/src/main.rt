// Reads the tables of the frames on standard input and prints for each, on a line, the number and the callback index of its refusal; `0 0` where it is
// accepted.

#![tactic(auto)]

// Prints the refusal of a table's bytes.
fn report(bytes: &[u8]) {
    let r = table::refusal_of(reader::read(bytes));
    frames::print_number(r.number);
    frames::print_fields(&[r.index]);
    frames::print(b"\n");
}

fn main() {
    frames::each(|bytes| {
        report(bytes);
        Some(())
    });
}
