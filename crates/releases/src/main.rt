// The program `releases OLD NEW`: two scripts, each run from reset, and for each guard what differs between its two maps, as README.md
// says.
#![tactic(auto)]

mod report;
mod run;

use failures::say;
use std::env::FillError;
use std::io::Write;
use std::rt::Env;

// Whether the program was started with an argument i.
fn has_argument(rt: &impl Env, i: usize) -> bool {
    !matches!(rt.arg(i, &mut []), Err(FillError::NotPresent))
}

// It gives no error: the exit status is 0 on every input (docs/DECISIONS.md). Where standard error cannot be written, there is nowhere to say
// so.
fn main(rt: HostRuntime) {
    let mut errors = rt.stderr();
    if !has_argument(&rt, 2) || has_argument(&rt, 3) {
        let _ = errors.write_all(
            b"usage: releases OLD NEW\nIt runs two scripts, each from reset, and prints for each guard what differs between its maps.\n",
        );
        return;
    }
    let old = run::run(&rt, &mut errors, 1);
    let new = run::run(&rt, &mut errors, 2);
    if let (Some(old), Some(new)) = (old, new) {
        let mut output = rt.stdout();
        if let Err(error) = report::print(&mut output, &old, &new) {
            let _ = say(&mut errors, b"standard output", &error);
        }
    }
}
