//! The arguments of the command line as they come from the system.
ghost use Rattle.std.specs.Prelude.{◌≡◌, IfErr, IfOk, OnErr, Ok, Err, map, string_bytes};
ghost use Rattle.std.specs.IoError.{error_kind};
ghost use Rattle.desk_cli.specs.Taken.{IsNotUtf8, IsStatusOf, fault_of_kind};

use crate::meaning::WordsFault;
use std::alloc::{AllocError, Global};
use std::env;
use std::io::{Error, ErrorKind};

/// The arguments of the command line, the program's name first.
///
/// `Usage` comes where one of them isn't UTF-8, `Memory` for want of memory.
pub fn read_arguments(rt: &HostRuntime) -> Result<Vec<String>, WordsFault> {
    match env::args(rt) {
        Ok(words) => list_of(words.collect(rt.alloc())),
        Err(error) => Err(fault_of(&error, not_utf8(rt.alloc()))),
    }
}

/// The arguments that were collected, or want of memory for their list.
fn list_of(words: Result<Vec<String>, AllocError>) -> Result<Vec<String>, WordsFault>
    ensures ok { IfOk words (λ list. result ≡ Ok list) }
    ensures memory { OnErr words (result ≡ Err WordsFault.Memory) }
{
    match words {
        Ok(list) => Ok(list),
        Err(_) => Err(WordsFault::Memory),
    }
}

/// Why the arguments couldn't be read: for want of memory, else since one of them isn't UTF-8, which has its own fault.
fn fault_of(error: &Error, not_utf8: WordsFault) -> WordsFault
    ensures { result ≡ fault_of_kind (error_kind error.now) not_utf8 }
{
    match error.kind() {
        ErrorKind::OutOfMemory => WordsFault::Memory,
        _ => not_utf8,
    }
}

/// The mistake that an argument isn't UTF-8.
fn not_utf8(alloc: Global) -> WordsFault
    ensures { IsNotUtf8 result }
{
    usage_of(String::from_str(alloc, "error: a word is not UTF-8\n"))
}

/// A mistake in the arguments by its text, or want of memory for that.
fn usage_of(text: Result<String, AllocError>) -> WordsFault
    ensures usage { IfOk text (λ line. result ≡ WordsFault.Usage line) }
    ensures memory { OnErr text (result ≡ WordsFault.Memory) }
{
    match text {
        Ok(line) => WordsFault::Usage(line),
        Err(_) => WordsFault::Memory,
    }
}

/// The arguments as texts.
///
/// `Memory` comes for want of memory, and no other fault.
pub fn texts_of<'a>(alloc: Global, words: &'a [String]) -> Result<Vec<&'a str>, WordsFault>
    ensures texts { IfOk result (λ texts. map (λ s. s.now) texts.items ≡ map string_bytes words.now) }
    ensures memory { IfErr result (λ fault. fault ≡ WordsFault.Memory) }
{
    let mut texts = Vec::new(alloc);
    for word in words {
        if texts.push(word.as_str()).is_err() {
            return Err(WordsFault::Memory);
        }
    }
    Ok(texts)
}

/// Prints why arguments give nothing to do, and gives the exit status: the help that they ask for on standard output with
/// 0, or 3 where it can't be written; a mistake on standard error with 2; want of memory there with 4.
pub fn print_refused(rt: &HostRuntime, fault: &WordsFault) -> u8
    ensures { IsStatusOf fault.now result }
{
    match fault {
        WordsFault::Help(text) => match print!(rt; "{text}") {
            Ok(()) => 0,
            Err(_) => {
                let _ = eprintln!(rt; "fault: write");
                3
            }
        },
        WordsFault::Usage(text) => {
            let _ = eprint!(rt; "{text}");
            2
        }
        WordsFault::Memory => {
            let _ = eprintln!(rt; "fault: memory");
            4
        }
    }
}
