// The program `bounds` on a table that is refused: P9 with J 50,600, number 16, index 1.
// Apart from `bounds`, since the gate runs a program on one input, and compares what it prints there.

#![tactic(auto)]

fn main(rt: HostRuntime) {
    report::cuorfelt_bounds(rt.stdin());
}
