// Writes the table on standard input to standard output with its cost entries normalised (document 02, U7); or `refused`, number, index.
// The programs `normalise_..` are the same on other inputs: the gate runs a program on one, and compares what it prints there.

#![tactic(auto)]

fn main(rt: HostRuntime) {
    report::rewrite::cuorfelt_normalise_program(rt.stdin());
}
