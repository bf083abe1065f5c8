//! Draws the genealogy that answers of the desk report.
#![tactic(auto)]

mod answers;
mod drawing;
mod ending;
mod gathered;
mod members;
mod reading;
mod words;

use desk_cli::{WordsFault, print_refused, read_arguments, texts_of};
use drawing::draw;
use ending::{DrawError, status_of};
use std::fs::File;
use std::process::ExitCode;
use words::{PictureWords, read_words};

fn main(rt: HostRuntime) -> ExitCode {
    let status = match draw_named(&rt) {
        Ok(status) => status,
        Err(fault) => print_refused(&rt, &fault),
    };
    ExitCode::from(status)
}

/// Draws what the arguments of the command line ask for, and gives the exit status.
fn draw_named(rt: &HostRuntime) -> Result<u8, WordsFault> {
    let arguments = read_arguments(rt)?;
    let texts = texts_of(rt.alloc(), arguments.as_slice())?;
    let words = read_words(rt.alloc(), texts.as_slice())?;
    let end = print_drawn(rt, words);
    if let Err(stop) = &end {
        let _ = eprintln!(rt; "{stop}");
    }
    Ok(status_of(&end))
}

/// Prints the picture that the arguments ask for.
fn print_drawn(rt: &HostRuntime, words: PictureWords<'_>) -> Result<(), DrawError> {
    let text = draw_file(rt, words)?;
    match print!(rt; "{text}") {
        Ok(()) => Ok(()),
        Err(_) => Err(DrawError::Write),
    }
}

fn draw_file(rt: &HostRuntime, words: PictureWords<'_>) -> Result<String, DrawError> {
    match words.file {
        None => draw(rt.alloc(), words.format, words.asked, &mut rt.reader()),
        Some(name) => match File::open(rt, name) {
            Ok(mut opened) => draw(rt.alloc(), words.format, words.asked, &mut opened),
            Err(_) => Err(DrawError::Open),
        },
    }
}
