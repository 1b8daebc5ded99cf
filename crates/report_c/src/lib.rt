// The static library that the installed programs link (programs/bounds.c, programs/normalise.c): the two of the crate `report` that are whole programs,
// each under its own name and with its own clause, again since a crate is a library or a static one. The handle takes no bytes: C declares and calls both
// with no argument.

#![tactic(auto)]

ghost use Rattle.std.specs.Prelude.{◌≤◌};
ghost use Rattle.report.specs.Status.{failed};

use std::io::Stdin;

#[unsafe(no_mangle)]
pub extern "C" fn cuorfelt_bounds(input: Stdin) -> u8
    ensures { result ≤ failed }
{
    report::cuorfelt_bounds(input)
}

#[unsafe(no_mangle)]
pub extern "C" fn cuorfelt_normalise_program(input: Stdin) -> u8
    ensures { result ≤ failed }
{
    report::rewrite::cuorfelt_normalise_program(input)
}
