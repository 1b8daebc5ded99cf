// Normalises the tables of the frames on standard input (document 02, U7) and prints for each a line: the number and the callback index of its refusal,
// `0 0` where there is none; then, where a byte has changed, all of its bytes.

#![tactic(auto)]

ghost use Rattle.std.specs.Prelude.{◌≤◌, length};

// Normalises a table and reports on it.
fn report(table: &mut [u8])
    requires { length table.old ≤ 1024 }
{
    let mut copy = [0u8; frames::LONGEST];
    let before = &mut copy[..table.len()];
    before.copy_from_slice(table);
    let r = table::refusal_of(normaliser::normalise(table));
    frames::print_number(r.number);
    frames::print_fields(&[r.index]);
    if *table != *before {
        frames::print_fields(table);
    }
    frames::print(b"\n");
}

fn main() {
    frames::each(|table| {
        report(table);
        Some(())
    });
}
