//! Reports whether a file opens as a desk's, what it holds, and which rows break a rule. It makes nothing and changes nothing,
//! but for a megabyte that is written next to the file and removed again where `--room` asks for it.
#![tactic(auto)]

mod checking;
mod copying;
mod opening;
mod room;
mod trying;

use checking::check_file;
use desk_cli::{WordsFault, print_refused, read_arguments, read_desk_check, texts_of};
use file_reports::{status_of, write_outcome};
use std::io;
use std::process::ExitCode;

fn main(rt: HostRuntime) -> ExitCode {
    let status = match check_named(&rt) {
        Ok(status) => status,
        Err(fault) => print_refused(&rt, &fault),
    };
    ExitCode::from(status)
}

/// Checks the file that the arguments of the command line name, reports the outcome, and gives the exit status.
fn check_named(rt: &HostRuntime) -> Result<u8, WordsFault> {
    let arguments = read_arguments(rt)?;
    let texts = texts_of(rt.alloc(), arguments.as_slice())?;
    let check = read_desk_check(rt.alloc(), texts.as_slice())?;
    let outcome = check_file(rt, check.file, check.tries_room);
    let reported = write_outcome(rt.alloc(), &mut io::writer(rt), check.is_json, &outcome);
    if let Err(report_error) = &reported {
        let _ = eprintln!(rt; "{report_error}");
    }
    Ok(status_of(&outcome, &reported))
}
