//! The desk: its arguments say what to do with which file. Lines of JSON or an order file come in on standard input, replies and
//! records go out on standard output; requests of HTTP come in on a port of 127.0.0.1.
#![tactic(auto)]

mod opening;
mod working;

use desk_cli::{WordsFault, read_arguments, read_words, texts_of};
use desk_program::write_words_fault;
use opening::perform_at;
use sqlite::Wary;
use std::io;
use std::process::ExitCode;

fn main(rt: HostRuntime) -> ExitCode {
    let status = match perform_words(&rt) {
        Ok(status) => status,
        Err(fault) => write_words_fault(&fault, &mut io::writer(&rt), &mut rt.stderr()),
    };
    ExitCode::from(status)
}

/// Does what the arguments of the command line ask for, and gives the exit status.
fn perform_words(rt: &HostRuntime) -> Result<u8, WordsFault> {
    let arguments = read_arguments(rt)?;
    let texts = texts_of(rt.alloc(), arguments.as_slice())?;
    let words = read_words(rt.alloc(), texts.as_slice())?;
    // A write that a stop tears may leave any bytes.
    Ok(perform_at(rt, &words, Wary))
}
