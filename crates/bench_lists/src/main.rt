//! A run over the keeper of lists, which has no store: lines of standard input are answered on standard output. What memory
//! that is refused does to this keeper is seen by it, and what the rules alone cost.
#![tactic(auto)]

use plant_desk::{DeskFault, ListKeeper};
use plant_text::{RunEnd, run_lines};
use std::io;
use std::process::ExitCode;

/// The exit status where the input or the output failed.
const FAILED: u8 = 3;

/// The exit status for want of memory.
const NO_MEMORY: u8 = 4;

fn main(rt: HostRuntime) -> ExitCode {
    let mut keeper = ListKeeper::new(rt.alloc());
    let end = run_lines(
        rt.alloc(),
        &mut rt.reader(),
        &mut io::writer(&rt),
        &mut keeper,
    );
    match end {
        RunEnd::Done { refused } => ExitCode::from(u8::from(refused)),
        RunEnd::Fault(DeskFault::Memory) => fails(&rt, "memory", NO_MEMORY),
        RunEnd::Fault(_) => fails(&rt, "store", FAILED),
        RunEnd::Read => fails(&rt, "read", FAILED),
        RunEnd::Write => fails(&rt, "write", FAILED),
        RunEnd::Endless => fails(&rt, "endless", FAILED),
    }
}

/// Prints a fault on standard error, and gives its exit status.
fn fails(rt: &impl Eprint, fault: &str, status: u8) -> ExitCode {
    let _ = eprintln!(rt; "fault: {fault}");
    ExitCode::from(status)
}
