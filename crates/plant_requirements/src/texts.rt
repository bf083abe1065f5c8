//! The texts of rows that break rules.
ghost use Rattle.std.specs.Prelude.{◌≡◌, Some};
ghost use Rattle.plant_requirements.specs.Texts.{fault_text, found_text, key_text, plain_wanted};
ghost use Rattle.plant_requirements.specs.Texts.{kind_code_name, rule_text, stock_text, wanted_text};

use crate::fault::{Found, RowFault, RowKey, Wanted};
use crate::value_rule::ValueRule;
use plant_tables_columns::MovementKindCode;
use std::fmt;

impl fmt::Display for RowKey {
    ghost output = { λ key. Some (key_text key) };

    fn fmt<W: fmt::Write>(&self, f: &mut fmt::Formatter<W>) -> fmt::Result {
        match self {
            RowKey::Id(id) => f.write_str(id.as_str()),
            RowKey::Number(number) => write!(f, "{number}"),
            RowKey::Ids(first, second) => write!(f, "{} {}", first.as_str(), second.as_str()),
            RowKey::Numbers(first, second) => write!(f, "{first} {second}"),
            RowKey::IdNumber(id, number) => write!(f, "{} {number}", id.as_str()),
            RowKey::IdNumbers(id, first, second) => write!(f, "{} {first} {second}", id.as_str()),
            RowKey::NumberIds(number, first, second) => {
                write!(f, "{number} {} {}", first.as_str(), second.as_str())
            }
            RowKey::IdNumberId(first, number, second) => {
                write!(f, "{} {number} {}", first.as_str(), second.as_str())
            }
            RowKey::Place(place) => write!(f, "number {place} by its key"),
        }
    }
}

/// The name of a movement's kind.
pub fn kind_code_name(kind_code: MovementKindCode) -> &'static str
    ensures { result.now ≡ kind_code_name kind_code }
{
    match kind_code {
        MovementKindCode::Received => "a receipt",
        MovementKindCode::Consumed => "a consumption",
        MovementKindCode::Produced => "a production",
        MovementKindCode::Scrapped => "a scrapping",
        MovementKindCode::Divided => "a division",
        MovementKindCode::Split => "a split",
        MovementKindCode::Merged => "a merge",
    }
}

impl fmt::Display for Found {
    ghost output = { λ found. Some (found_text found) };

    fn fmt<W: fmt::Write>(&self, f: &mut fmt::Formatter<W>) -> fmt::Result {
        match self {
            Found::Id(id) => f.write_str(id.as_str()),
            Found::Number(number) => write!(f, "{number}"),
            Found::Order(state) => f.write_str(state.name()),
            Found::State(state) => f.write_str(state.name()),
            Found::MovementKind(kind_code) => f.write_str(kind_code_name(*kind_code)),
            Found::Integer(number) => write!(f, "{number}"),
            Found::Text(text) => write!(f, "'{}'", text.as_str()),
            Found::LongText => f.write_str("a text of more than 60 bytes"),
            Found::OtherText => f.write_str("a text with a byte that isn't from the space to ~"),
            Found::Real => f.write_str("a real number"),
            Found::Blob => f.write_str("a blob"),
            Found::Null => f.write_str("NULL"),
            Found::Row => f.write_str("the row"),
            Found::Nothing => f.write_str("no row"),
        }
    }
}

/// What is wanted, where that is always the same.
fn plain_wanted(wanted: Wanted) -> &'static str
    ensures { result.now ≡ plain_wanted wanted }
{
    match wanted {
        Wanted::NoRow => "no such row",
        Wanted::NoBatch => "an order without a batch",
        Wanted::OpenBatch => "an order with a batch that isn't closed",
        Wanted::ClosedBatch => "an order with a closed batch",
        Wanted::OneBatch => "one batch of the order",
        Wanted::WellFormed => "a well-formed recipe",
        Wanted::Control => "the control recipe that its order asks for",
        Wanted::Birth => {
            "movements of one number and kind that make it, of at most 10^15 in all, or one division"
        }
        Wanted::Columns => "the columns that its kind or state asks for",
        Wanted::RightDefinition => {
            "a definition that the other lot, or the control recipe of the batch, has too"
        }
        Wanted::Parts => "at most 16 parts, of distinct sublots",
        Wanted::Apart => "a number that no event of a batch has",
        Wanted::Later => "a number above those that brought what it takes",
        Wanted::NextLine => "line 1 of a number, or the next part of the merge before it",
        Wanted::Between =>
            "a moment no later than that of its lifting, and both no later than the desk's",
        Wanted::Mark => "the mark of an open recall that reaches it",
        Wanted::OwnNumber => "a number that no other receipt has",
        Wanted::Content => "a content of one or more bytes from the space to ~ and LFs",
        Wanted::Values => "values that each obey their rule",
        _ => "",
    }
}

/// A stock as the difference of what entered and what left.
#[derive(Clone, Copy)]
struct StockText {
    entered: u128,
    left: u128,
}

impl fmt::Display for StockText {
    ghost output = { λ reported. Some (stock_text reported.entered reported.left) };

    fn fmt<W: fmt::Write>(&self, f: &mut fmt::Formatter<W>) -> fmt::Result {
        let StockText { entered, left } = self;
        if entered < left {
            return write!(
                f,
                "no less to have left than entered: {entered} entered and {left} left"
            );
        }
        let stock = entered - left;
        write!(f, "{stock}, for {entered} entered and {left} left")
    }
}

impl fmt::Display for ValueRule {
    ghost output = { λ rule. Some (rule_text rule) };

    fn fmt<W: fmt::Write>(&self, f: &mut fmt::Formatter<W>) -> fmt::Result {
        match self {
            ValueRule::Id => f.write_str("an id"),
            ValueRule::IdOrNull => f.write_str("an id or NULL"),
            ValueRule::IdOrEmpty => f.write_str("an id or the empty text"),
            ValueRule::Text => f.write_str("a text of at most 60 bytes from the space to ~"),
            ValueRule::TextOrNull => {
                f.write_str("a text of at most 60 bytes from the space to ~, or NULL")
            }
            ValueRule::AnyText => f.write_str("a text"),
            ValueRule::Unit => f.write_str("a unit of 1 to 8 letters and digits"),
            ValueRule::Due => f.write_str("a date as 2026-11-30, of the years 2000 to 2099"),
            ValueRule::Number(low, high) => write!(f, "a whole number from {low} to {high}"),
            ValueRule::NumberOrNull(low, high) => {
                write!(f, "a whole number from {low} to {high}, or NULL")
            }
            ValueRule::Whole => f.write_str("a whole number"),
            ValueRule::RecipeState => f.write_str("draft, approved or withdrawn"),
            ValueRule::JobState => f.write_str("open, cancelled, released or finished"),
            ValueRule::BatchState => f.write_str(
                "idle, running, complete, pausing, paused, holding, held, restarting, stopping, stopped, aborting or aborted",
            ),
            ValueRule::RecallState => f.write_str("open or lifted"),
            ValueRule::EventWord => f.write_str(
                "start, stop, hold, restart, abort, reset, pause, resume, done, phase or close",
            ),
        }
    }
}

impl fmt::Display for Wanted {
    ghost output = { λ wanted. Some (wanted_text wanted) };

    fn fmt<W: fmt::Write>(&self, f: &mut fmt::Formatter<W>) -> fmt::Result {
        match *self {
            Wanted::Key(table) => {
                let name = table.name();
                write!(f, "the key of a row of table {name}, one that fits")
            }
            Wanted::Stock { entered, left } => {
                let stock = StockText { entered, left };
                write!(f, "{stock}")
            }
            Wanted::State(state) => f.write_str(state.name()),
            Wanted::Number(number) => write!(f, "{number}"),
            Wanted::Allowed(refusal) => {
                let name = refusal.name();
                write!(f, "events that are allowed: one is refused as {name}")
            }
            Wanted::Size { least, greatest } => {
                write!(f, "a size from {} to {}", least.get(), greatest.get())
            }
            Wanted::NumberedFrom(table, first) => {
                write!(f, "rows of table {} numbered from {first} on", table.name())
            }
            Wanted::Given(greatest) => write!(f, "the number of a command, 1 to {greatest}"),
            Wanted::NotAfter(at) => write!(f, "no moment after {at}, which is the desk's"),
            Wanted::NotBefore(at) => {
                write!(f, "no moment before {at}, which stands with a lower number")
            }
            Wanted::EdgeOf { seq, line } => {
                write!(f, "the edge that movement {seq} {line} makes")
            }
            Wanted::Value(rule) => write!(f, "{rule}"),
            plain => f.write_str(plain_wanted(plain)),
        }
    }
}

impl fmt::Display for RowFault {
    ghost output = { λ fault. Some (fault_text fault) };

    fn fmt<W: fmt::Write>(&self, f: &mut fmt::Formatter<W>) -> fmt::Result {
        write!(f, "table {}, row {}", self.table.name(), self.key)?;
        if let Some(column) = self.column {
            write!(f, ", column {}", column.name())?;
        }
        let (found, wanted) = (self.found, self.wanted);
        write!(f, ": {found} stands there, wanted is {wanted}")
    }
}
