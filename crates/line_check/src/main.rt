//! Checks lines before they are sent: what is wrong with each that the desk would answer BadForm.
#![tactic(auto)]

mod command_words;
mod ending;
mod hints;
mod judge;
mod lines;
mod question_words;
mod rules;
mod schema;

use desk_cli::{CheckFault, WordsFault, print_refused, read_arguments, read_line_check, texts_of};
use ending::status_of;
use lines::check_lines;
use schema::schema_of_lines;
use std::fs::File;
use std::io;
use std::process::ExitCode;

fn main(rt: HostRuntime) -> ExitCode {
    let status = match check_named(&rt) {
        Ok(status) => status,
        Err(fault) => print_refused(&rt, &fault),
    };
    ExitCode::from(status)
}

/// Checks the lines of the file that the words of the command line name, or prints the JSON Schema, and gives the exit status.
fn check_named(rt: &HostRuntime) -> Result<u8, WordsFault> {
    let arguments = read_arguments(rt)?;
    let texts = texts_of(rt.alloc(), arguments.as_slice())?;
    let check = read_line_check(rt.alloc(), texts.as_slice())?;
    let end = if check.wants_schema {
        print_schema(rt)
    } else {
        check_file(rt, check.file)
    };
    if let Err(fault) = &end {
        let _ = eprintln!(rt; "{fault}");
    }
    Ok(status_of(&end))
}

/// Checks the lines of the file of a name, of standard input where there is none.
fn check_file(rt: &HostRuntime, file: Option<&str>) -> Result<bool, CheckFault> {
    let mut writer = io::writer(rt);
    let mut hints = rt.stderr();
    match file {
        None => check_lines(rt.alloc(), &mut rt.reader(), &mut writer, &mut hints),
        Some(name) => match File::open(rt, name) {
            Ok(mut opened) => check_lines(rt.alloc(), &mut opened, &mut writer, &mut hints),
            Err(_) => Err(CheckFault::Open),
        },
    }
}

/// Prints the JSON Schema of lines.
fn print_schema(rt: &HostRuntime) -> Result<bool, CheckFault> {
    let Ok(schema) = schema_of_lines(rt.alloc()) else {
        return Err(CheckFault::Memory);
    };
    let Ok(text) = schema.to_string_pretty(rt.alloc()) else {
        return Err(CheckFault::Memory);
    };
    match println!(rt; "{text}") {
        Ok(()) => Ok(false),
        Err(_) => Err(CheckFault::Write),
    }
}
