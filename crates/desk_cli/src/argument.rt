//! The arguments of the subcommands, and the message of one whose value breaks its rule.
ghost use Rattle.std.specs.Prelude.{◌≡◌, Some};
ghost use Rattle.desk_cli.specs.Arguments.{name_of, rule_text};

use std::fmt;

/// What on the command line may break a rule of the desk.
#[derive(Clone, Copy, Debug, PartialEq, Eq)]
pub enum Argument {
    /// The subcommand itself. Subcommands that are none of the desk's are refused before by clap.
    Word,
    /// The name of the file, which clap sees to.
    File,
    /// When orders came.
    At,
    /// Who brought them.
    By,
    /// The reference under which they are taken in once.
    Reference,
    /// Which way a trace goes.
    Direction,
    /// The lot that is traced.
    Lot,
    /// The batch whose record is printed.
    Batch,
    /// The port of `serve`, whose range clap sees to.
    Port,
    /// How many connections `serve` takes, whose range clap sees to.
    Count,
    /// A name under which `serve` takes requests in addition to this machine's, with the web page.
    Host,
    /// How far ahead a command may be, whose range clap sees to.
    Ahead,
    /// The name of the field of a head that says whose commands a request may bring.
    OperatorField,
    /// The name that the page shows.
    Name,
    /// The language of the page.
    Language,
}

impl Argument {
    /// Under which name clap has it.
    pub(crate) fn name(self) -> &'static str
        ensures { result.now ≡ name_of self }
    {
        match self {
            Argument::Word => "word",
            Argument::File => "file",
            Argument::At => "at",
            Argument::By => "by",
            Argument::Reference => "ref",
            Argument::Direction => "direction",
            Argument::Lot => "lot",
            Argument::Batch => "batch",
            Argument::Port => "port",
            Argument::Count => "count",
            Argument::Host => "host",
            Argument::Ahead => "ahead",
            Argument::OperatorField => "operator-field",
            Argument::Name => "name",
            Argument::Language => "language",
        }
    }
}

/// The rule of its value.
impl fmt::Display for Argument {
    ghost output = { λ argument. Some (rule_text argument) };

    fn fmt<W: fmt::Write>(&self, f: &mut fmt::Formatter<W>) -> fmt::Result {
        f.write_str(match self {
            Argument::Word => {
                "the word is one of init, run, import, trace, record, verify and serve"
            }
            Argument::File => "FILE is the name of a file",
            Argument::At => "N of --at is a whole number from 0 to 253402300799",
            Argument::By => "TEXT of --by is at most 60 characters from the space to ~",
            Argument::Reference => {
                "ID of --ref is 1 to 24 of A to Z, 0 to 9 and -, the first a letter"
            }
            Argument::Direction => "DIRECTION is back or forward",
            Argument::Lot => "LOT is 1 to 24 of A to Z, 0 to 9 and -, the first a letter",
            Argument::Batch => "BATCH is 1 to 24 of A to Z, 0 to 9 and -, the first a letter",
            Argument::Port => "PORT is a whole number from 1 to 65535",
            Argument::Count => "COUNT is a whole number from 1 to 1000000",
            Argument::Host => {
                "NAME of --host is 1 to 60 of a to z, 0 to 9, - and ., the first no - and no .; 8 of them at most, and only with --page"
            }
            Argument::Ahead => "SECONDS of --ahead is a whole number from 0 to 1000000",
            Argument::OperatorField => {
                "NAME of --operator-field is 1 to 60 of A to Z, a to z, 0 to 9 and -"
            }
            Argument::Name => "TEXT of --name is 1 to 60 characters from the space to ~",
            Argument::Language => "LANGUAGE of --language is en or de",
        })
    }
}
