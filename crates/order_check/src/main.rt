//! Checks an order file before it is sent: how many orders it holds, or every fault and each order that conflicts with an earlier one.
#![tactic(auto)]

mod conflicts;
mod ending;
mod reason;
mod verdict;

use desk_cli::{CheckFault, WordsFault, print_refused, read_arguments, read_order_check, texts_of};
use ending::{end_of, status_of};
use std::fs::File;
use std::io;
use std::process::ExitCode;
use verdict::{Count, FaultLine, FileVerdict, judge};

fn main(rt: HostRuntime) -> ExitCode {
    let status = match check_named(&rt) {
        Ok(status) => status,
        Err(fault) => print_refused(&rt, &fault),
    };
    ExitCode::from(status)
}

/// Checks the file that the arguments of the command line name, and gives the exit status.
fn check_named(rt: &HostRuntime) -> Result<u8, WordsFault> {
    let arguments = read_arguments(rt)?;
    let texts = texts_of(rt.alloc(), arguments.as_slice())?;
    let file = read_order_check(rt.alloc(), texts.as_slice())?;
    let end = match judge_file(rt, file) {
        Ok(verdict) => end_of(verdict.is_good(), write_verdict(rt, &verdict).is_ok()),
        Err(fault) => Err(fault),
    };
    if let Err(fault) = &end {
        let _ = eprintln!(rt; "{fault}");
    }
    Ok(status_of(&end))
}

/// The verdict on the file of a name, on standard input where there is none.
fn judge_file(rt: &HostRuntime, file: Option<&str>) -> Result<FileVerdict, CheckFault> {
    match file {
        None => judge(rt.alloc(), &mut rt.reader()),
        Some(name) => match File::open(rt, name) {
            Ok(mut opened) => judge(rt.alloc(), &mut opened),
            Err(_) => Err(CheckFault::Open),
        },
    }
}

/// Prints a verdict: each fault and each conflict in a line, or how many orders there are.
fn write_verdict(rt: &HostRuntime, verdict: &FileVerdict) -> io::Result<()> {
    if verdict.is_good() {
        let count = Count(verdict.orders);
        return println!(rt; "{count}");
    }
    for fault in verdict.faults.as_slice() {
        let line = FaultLine(fault);
        println!(rt; "{line}")?;
    }
    for conflict in verdict.conflicts.as_slice() {
        println!(rt; "{conflict}")?;
    }
    Ok(())
}
