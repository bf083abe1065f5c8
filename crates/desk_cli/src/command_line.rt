//! The command line, as it is defined to clap.
ghost use Rattle.std.specs.Prelude.{◌≡◌, IfOk, codes, false};
ghost use Rattle.clap.specs.Words.{app_of, rule_of, shape_of, with_rule, with_subcommand};
ghost use Rattle.desk_cli.specs.CommandLine.{ahead_rule, bare_program, import_app, count_rule, host_rule};
ghost use Rattle.desk_cli.specs.CommandLine.{log_rule, page_rule, port_app, port_rule, record_app};
ghost use Rattle.desk_cli.specs.CommandLine.{serve_app, the_program, trace_app, required_rule};
ghost use Rattle.desk_cli.specs.CommandLine.{operator_field_rule, page_app, references_rule};
ghost use Rattle.desk_cli.specs.CommandLine.{commands_app, language_rule, name_rule};
ghost use Rattle.desk_cli.specs.CommandLine.{word_app, at_rule, by_rule, reference_rule};
ghost use Rattle.desk_cli.specs.CommandLine.{with_taking, with_report_words, IsLocal};

use clap::{Arg, ArgAction, Command, value_parser};
use plant_base::GREATEST_MOMENT;
use std::alloc::{AllocError, Global};

/// The version of the program. The schema of a desk's tables has a number of its own, which `init` prints.
pub(crate) const VERSION: &str = "1.0.0";

/// What the exit status means.
const STATUSES: &str =
    "Exit status: 0 where all went well; 1 where a reply is a refusal, or an order file has a fault; 2 where the words
aren't understood; 3 where the store, the port, a read or a write failed; 4 where memory was refused.";

/// An argument that has to be there.
fn required_argument<'a>(alloc: Global, id: &'a str, name: &'a str, help: &'a str) -> Arg<'a>
    ensures rule { rule_of result ≡ required_rule id.entry.now }
    ensures local { result.global ≡ false }
{
    Arg::new(alloc, id)
        .required(true)
        .value_name(name)
        .help(help)
}

/// The name of the file, which has to be there.
fn file_argument<'a>(alloc: Global) -> Arg<'a>
    ensures rule { rule_of result ≡ required_rule (codes "file") }
    ensures local { result.global ≡ false }
{
    required_argument(
        alloc,
        "file",
        "FILE",
        "The file of the desk's records; :memory: keeps them in memory",
    )
}

/// The port of `serve`, which has to be there.
fn port_argument<'a>(alloc: Global) -> Arg<'a>
    ensures rule { rule_of result ≡ port_rule }
    ensures local { result.global ≡ false }
{
    Arg::new(alloc, "port")
        .required(true)
        .value_name("PORT")
        .help("The port of 127.0.0.1, 1 to 65535")
        .value_parser(value_parser!(u16).range(1..))
}

/// How many connections `serve` takes, which has to be there.
fn count_argument<'a>(alloc: Global) -> Arg<'a>
    ensures rule { rule_of result ≡ count_rule }
    ensures local { result.global ≡ false }
{
    Arg::new(alloc, "count")
        .required(true)
        .value_name("COUNT")
        .help("How many connections are served, 1 to 1000000, one after the other")
        .value_parser(value_parser!(u32).range(1..=1_000_000))
}

/// `--log`, whether `serve` notes each request.
fn log_argument<'a>(alloc: Global) -> Arg<'a>
    ensures rule { rule_of result ≡ log_rule }
    ensures local { result.global ≡ false }
{
    Arg::new(alloc, "log")
        .long("log")
        .action(ArgAction::SetTrue)
        .help("Note each request on standard error, in a line of its own")
}

/// `--page`, whether `serve` serves the page.
fn page_argument<'a>(alloc: Global) -> Arg<'a>
    ensures rule { rule_of result ≡ page_rule }
    ensures local { result.global ≡ false }
{
    Arg::new(alloc, "page")
        .long("page")
        .action(ArgAction::SetTrue)
        .help("Serve the page for browsers at /, to this machine's own browsers alone")
}

/// `--host NAME`, a further name of a host under which the page is served.
fn host_argument<'a>(alloc: Global) -> Arg<'a>
    ensures rule { rule_of result ≡ host_rule }
    ensures local { result.global ≡ false }
{
    Arg::new(alloc, "host")
        .long("host")
        .value_name("NAME")
        .action(ArgAction::Append)
        .help(
            "With --page: a further name of this host, under which a proxy on it hands requests on; up to 8 times",
        )
}

/// `--ahead SECONDS`, by how many seconds a command may be ahead of the machine's clock.
fn ahead_argument<'a>(alloc: Global) -> Arg<'a>
    ensures rule { rule_of result ≡ ahead_rule }
    ensures local { result.global ≡ false }
{
    Arg::new(alloc, "ahead")
        .long("ahead")
        .value_name("SECONDS")
        .help(
            "By how many seconds a command may be ahead of this machine's clock, 0 to 1000000, 0 by any; with --page 300 unless said",
        )
        .value_parser(value_parser!(u32).range(0..=1_000_000))
}

/// `--references`, whether a command has to have a reference.
fn references_argument<'a>(alloc: Global) -> Arg<'a>
    ensures rule { rule_of result ≡ references_rule }
    ensures local { result.global ≡ false }
{
    Arg::new(alloc, "references")
        .long("references")
        .action(ArgAction::SetTrue)
        .help("Refuse commands and imports that have no reference")
}

/// `--operator-field NAME`, the field of a head that says whose commands a request may bring.
fn operator_field_argument<'a>(alloc: Global) -> Arg<'a>
    ensures rule { rule_of result ≡ operator_field_rule }
    ensures local { result.global ≡ false }
{
    Arg::new(alloc, "operator-field")
        .long("operator-field")
        .value_name("NAME")
        .help(
            "Refuse commands and imports whose operator isn't the value of this field, which a proxy sets from its login",
        )
}

/// `--name TEXT`, the name that the page shows.
fn name_argument<'a>(alloc: Global) -> Arg<'a>
    ensures rule { rule_of result ≡ name_rule }
    ensures local { result.global ≡ false }
{
    Arg::new(alloc, "name").long("name").value_name("TEXT").help(
        "The name of the desk that the page shows: 1 to 60 characters of ASCII",
    )
}

/// `--language LANGUAGE`, the language of the page.
fn language_argument<'a>(alloc: Global) -> Arg<'a>
    ensures rule { rule_of result ≡ language_rule }
    ensures local { result.global ≡ false }
{
    Arg::new(alloc, "language")
        .long("language")
        .value_name("LANGUAGE")
        .help("The language of the page, en or de; the browser's unless said")
}

/// The subcommand `name`, which takes the name of a file alone.
fn word_command<'a>(
    alloc: Global,
    name: &'a str,
    about: &'a str,
    example: &'a str,
) -> Result<Command<'a>, AllocError>
    ensures app { IfOk result (λ c. app_of c ≡ word_app name.entry.now) }
    ensures local { IfOk result (λ c. IsLocal c) }
{
    Command::new(alloc, name)
        .about(about)
        .after_help(example)
        .arg(file_argument(alloc))
}

/// `--at N`, when the orders came.
fn at_argument<'a>(alloc: Global) -> Arg<'a>
    ensures rule { rule_of result ≡ at_rule }
    ensures local { result.global ≡ false }
{
    Arg::new(alloc, "at")
        .long("at")
        .required(true)
        .value_name("SECONDS")
        .help("When the orders came, in seconds since 1970-01-01T00:00:00Z")
        .value_parser(value_parser!(u64).range(..=GREATEST_MOMENT as i64))
}

/// `--by TEXT`, who brought them.
fn by_argument<'a>(alloc: Global) -> Arg<'a>
    ensures rule { rule_of result ≡ by_rule }
    ensures local { result.global ≡ false }
{
    Arg::new(alloc, "by")
        .long("by")
        .value_name("TEXT")
        .default_value("desk")
        .help("Who brought them: at most 60 characters of ASCII")
}

/// `--ref ID`, the reference under which they are taken in once.
fn reference_argument<'a>(alloc: Global) -> Arg<'a>
    ensures rule { rule_of result ≡ reference_rule }
    ensures local { result.global ≡ false }
{
    Arg::new(alloc, "ref").long("ref").value_name("ID").help(
        "The reference under which they are taken in once, however often it is sent",
    )
}

/// The subcommand `import`.
fn import_command<'a>(alloc: Global) -> Result<Command<'a>, AllocError>
    ensures app { IfOk result (λ c. app_of c ≡ import_app) }
    ensures local { IfOk result (λ c. IsLocal c) }
{
    word_command(
        alloc,
        "import",
        "Take in the order file on standard input, all of its orders or none",
        "Example: desk import plant.db --at 1798761600 --by anna < orders.csv\n\
Prints {\"ok\":N}, or the refusal, or the first fault of the file, as in csv row 2 Due.",
    )?
    .arg(at_argument(alloc))?
    .arg(by_argument(alloc))?
    .arg(reference_argument(alloc))
}

/// The subcommand `trace`.
fn trace_command<'a>(alloc: Global) -> Result<Command<'a>, AllocError>
    ensures app { IfOk result (λ c. app_of c ≡ trace_app) }
    ensures local { IfOk result (λ c. IsLocal c) }
{
    let direction = required_argument(
        alloc,
        "direction",
        "DIRECTION",
        "back: what the lot was made from; forward: where it went",
    );
    let lot = required_argument(alloc, "lot", "LOT", "The id of the lot");
    word_command(
        alloc,
        "trace",
        "Tell every lot and batch that a lot was made from, or that it went into",
        "Example: desk trace plant.db forward L-1\nPrints a line for each: lot ID or batch ID.",
    )?
    .arg(direction)?
    .arg(lot)
}

/// The subcommand `record`.
fn record_command<'a>(alloc: Global) -> Result<Command<'a>, AllocError>
    ensures app { IfOk result (λ c. app_of c ≡ record_app) }
    ensures local { IfOk result (λ c. IsLocal c) }
{
    let batch = required_argument(alloc, "batch", "BATCH", "The id of the batch");
    word_command(
        alloc,
        "record",
        "Print the record of a batch",
        "Example: desk record plant.db B-1",
    )?
    .arg(batch)
}

/// The subcommand `serve` without the arguments about the web page, the clock and commands.
fn port_command<'a>(alloc: Global) -> Result<Command<'a>, AllocError>
    ensures app { IfOk result (λ c. app_of c ≡ port_app) }
    ensures local { IfOk result (λ c. IsLocal c) }
{
    word_command(
        alloc,
        "serve",
        "Answer requests of HTTP/1.1 on 127.0.0.1",
        "Example: desk serve plant.db 8080 1000\nThen: curl http://127.0.0.1:8080/v1/desk\n\
For browsers: desk serve plant.db 8080 1000000 --page\nThen open http://127.0.0.1:8080/",
    )?
    .arg(port_argument(alloc))?
    .arg(count_argument(alloc))?
    .arg(log_argument(alloc))
}

/// The subcommand with the arguments about the web page and the clock as well.
fn with_page<'a>(alloc: Global, word: Command<'a>) -> Result<Command<'a>, AllocError>
    requires { IsLocal word }
    ensures app { IfOk result (λ c. app_of c ≡ with_rule (with_rule (with_rule (app_of word.entry) page_rule) host_rule) ahead_rule) }
    ensures local { IfOk result (λ c. IsLocal c) }
{
    word.arg(page_argument(alloc))?
        .arg(host_argument(alloc))?
        .arg(ahead_argument(alloc))
}

/// The subcommand `serve` without the arguments about commands and without what the page shows.
fn page_command<'a>(alloc: Global) -> Result<Command<'a>, AllocError>
    ensures app { IfOk result (λ c. app_of c ≡ page_app) }
    ensures local { IfOk result (λ c. IsLocal c) }
{
    with_page(alloc, port_command(alloc)?)
}

/// The subcommand `serve` without what the page shows.
fn commands_command<'a>(alloc: Global) -> Result<Command<'a>, AllocError>
    ensures app { IfOk result (λ c. app_of c ≡ commands_app) }
    ensures local { IfOk result (λ c. IsLocal c) }
{
    page_command(alloc)?
        .arg(references_argument(alloc))?
        .arg(operator_field_argument(alloc))
}

/// The subcommand `serve`.
fn serve_command<'a>(alloc: Global) -> Result<Command<'a>, AllocError>
    ensures app { IfOk result (λ c. app_of c ≡ serve_app) }
    ensures local { IfOk result (λ c. IsLocal c) }
{
    commands_command(alloc)?
        .arg(name_argument(alloc))?
        .arg(language_argument(alloc))
}

/// The program with no subcommand.
fn bare_command<'a>(alloc: Global) -> Command<'a>
    ensures { app_of result ≡ bare_program }
{
    Command::new(alloc, "desk")
        .about("The manufacturing desk of a batch plant; alone it does run :memory:")
        .version(VERSION)
        .after_help(STATUSES)
        .disable_help_subcommand(true)
}

/// The subcommand `init`.
fn init_command<'a>(alloc: Global) -> Result<Command<'a>, AllocError>
    ensures app { IfOk result (λ c. app_of c ≡ word_app (codes "init")) }
    ensures local { IfOk result (λ c. IsLocal c) }
{
    word_command(
        alloc,
        "init",
        "Make a desk, or take up the one that is there",
        "Example: desk init plant.db\nPrints ready schema N, N being the schema of its tables.",
    )
}

/// The subcommand `run`.
fn run_command<'a>(alloc: Global) -> Result<Command<'a>, AllocError>
    ensures app { IfOk result (λ c. app_of c ≡ word_app (codes "run")) }
    ensures local { IfOk result (λ c. IsLocal c) }
{
    word_command(
        alloc,
        "run",
        "Answer commands and questions, a line of JSON each, from standard input",
        "Example: desk run plant.db < shift.jsonl\n\
Prints a line for each. The exit status is 1 where one was refused.",
    )
}

/// The subcommand `verify`.
fn verify_command<'a>(alloc: Global) -> Result<Command<'a>, AllocError>
    ensures app { IfOk result (λ c. app_of c ≡ word_app (codes "verify")) }
    ensures local { IfOk result (λ c. IsLocal c) }
{
    word_command(
        alloc,
        "verify",
        "Check every record of a desk",
        "Example: desk verify plant.db\n\
Prints good schema N seq S, S being how many commands were accepted.",
    )
}

/// The program with one subcommand more, none of whose arguments is global.
fn with_word<'a>(program: Command<'a>, word: Command<'a>) -> Result<Command<'a>, AllocError>
    requires { IsLocal word }
    ensures { IfOk result (λ c. app_of c ≡ with_subcommand (app_of program.entry) (shape_of word.entry)) }
{
    program.subcommand(word)
}

/// The program with the subcommands that take commands in as well: `init`, `run` and `import`.
fn with_taking<'a>(alloc: Global, program: Command<'a>) -> Result<Command<'a>, AllocError>
    ensures { IfOk result (λ c. app_of c ≡ with_taking (app_of program.entry)) }
{
    let with_init = with_word(program, init_command(alloc)?)?;
    let with_run = with_word(with_init, run_command(alloc)?)?;
    with_word(with_run, import_command(alloc)?)
}

/// The program with the subcommands that report on a desk as well: `trace`, `record` and `verify`.
fn with_report_words<'a>(alloc: Global, program: Command<'a>) -> Result<Command<'a>, AllocError>
    ensures { IfOk result (λ c. app_of c ≡ with_report_words (app_of program.entry)) }
{
    let with_trace = with_word(program, trace_command(alloc)?)?;
    let with_record = with_word(with_trace, record_command(alloc)?)?;
    with_word(with_record, verify_command(alloc)?)
}

/// The command line of the program.
pub(crate) fn command_line<'a>(alloc: Global) -> Result<Command<'a>, AllocError>
    ensures { IfOk result (λ c. app_of c ≡ the_program) }
{
    let taking = with_taking(alloc, bare_command(alloc))?;
    let reporting = with_report_words(alloc, taking)?;
    with_word(reporting, serve_command(alloc)?)
}
