// Prints the sheet of the table on standard input: `window W`, then index and bound of each callback; or `refused`, number, index.
// The programs `bounds_..` are the same on other inputs: the gate runs a program on one, and compares what it prints there.

#![tactic(auto)]

fn main(rt: HostRuntime) {
    report::cuorfelt_bounds(rt.stdin());
}
