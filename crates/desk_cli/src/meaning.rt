//! What the program has to do.
ghost use Rattle.std.specs.Prelude.{◌≡◌};

use crate::hosts::Hosts;
use plant_base::{Id, Moment, Text};
use plant_trace::Direction;
use thiserror::Error;

/// What the program has to do, with the name of the file of the desk.
#[derive(Clone, Copy, Debug, PartialEq, Eq)]
pub struct Words<'a> {
    /// The name of the file, `:memory:` for a desk that is kept in memory.
    pub file: &'a str,
    /// What is done over it.
    pub work: Work,
}

/// What is done over the file.
#[derive(Clone, Copy, Debug, PartialEq, Eq)]
pub enum Work {
    /// A task over the standard streams.
    Task(Task),
    /// Requests of HTTP/1.1 (RFC 9112) on 127.0.0.1.
    Serve(Serving),
}

/// What is done over the file and the standard streams.
#[derive(Clone, Copy, Debug, PartialEq, Eq)]
pub enum Task {
    /// Make a desk in the file where there is none.
    Init,
    /// Answer the lines of standard input.
    Run,
    /// Take in the orders of the order file on standard input, as one command.
    Import {
        /// When the orders came.
        at: Moment,
        /// Who brought them.
        by: Text,
        /// The reference under which they are taken in once, where one is named.
        reference: Option<Id>,
    },
    /// Print what leads to a lot, or where it leads.
    Trace {
        /// Which way.
        direction: Direction,
        /// The lot.
        lot: Id,
    },
    /// Print the record of a batch (IEC 61512-4).
    Record {
        /// The batch.
        batch: Id,
    },
    /// Check every row of the desk.
    Verify,
}

/// Where requests come in, and how many are served.
#[derive(Clone, Copy, Debug, PartialEq, Eq)]
pub struct Serving {
    /// The port of 127.0.0.1, 1 to 65535.
    pub port: u16,
    /// How many connections, 1 to 1,000,000, one after the other.
    pub count: u32,
    /// Whether each request is noted on standard error.
    pub is_logged: bool,
    /// Where the web page is served: the names of hosts under which it is, other than those of this machine.
    pub page: Option<Hosts>,
    /// By how many seconds a command may be ahead of the machine's clock, 1 to 1,000,000; `None` where it may be by any.
    pub most_ahead: Option<u32>,
    /// Whether a command that is to be executed has to have a reference.
    pub needs_references: bool,
    /// The name of the field of a head that says whose commands the request may bring, of letters, digits and `-`; `None` where it may bring
    /// anyone's.
    pub operator_field: Option<Text>,
    /// The name that the page shows, which isn't empty; `None` where it shows none.
    pub name: Option<Text>,
    /// The language of the page, `en` or `de` (RFC 5646); `None` where it is the browser's.
    pub language: Option<Text>,
}

/// Why the arguments give nothing to do.
#[derive(Debug, Drop, Error)]
pub enum WordsFault {
    /// The arguments aren't understood: the text says why, and how the program is used.
    #[error("{0}")]
    Usage(String),
    /// The arguments ask for help or for the version, which is the text.
    #[error("{0}")]
    Help(String),
    /// Memory was refused.
    #[error("out of memory")]
    Memory,
}
