// The program `bounds` on an input longer than any table, and than its buffer: refused by its length, number 4.
// Apart from `bounds`, since the gate runs a program on one input, and compares what it prints there.

#![tactic(auto)]

fn main(rt: HostRuntime) {
    report::cuorfelt_bounds(rt.stdin());
}
