// The program `normalise` on a table that is refused for a loop, number 13, index 2; its entries 3 and 9, which the reader refuses first, are no fault here.
// Apart from `normalise`, since the gate runs a program on one input, and compares what it prints there.

#![tactic(auto)]

fn main(rt: HostRuntime) {
    report::rewrite::cuorfelt_normalise_program(rt.stdin());
}
