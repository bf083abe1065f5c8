//! The lines that the program writes, in a room of fixed size: they take no memory.
ghost use Rattle.std.specs.Prelude.{◌≡◌, ◌+◌, ◌≤◌, ◌++◌, length, decimal};
ghost use Rattle.plant_orders.specs.{csv_text};
ghost use Rattle.desk_program.specs.Texts as spec;

use crate::fault::ProgramFault;
use arrayvec::ArrayString;
use itoa::Buffer;
use plant_orders::CsvFault;

/// A line without its LF.
pub(crate) type ShortLine = ArrayString<64>;

/// Appends the digits of a number, of which there are 20 at most.
fn push_number(line: &mut ShortLine, number: u64)
    requires { length line.old.bytes + 20 ≤ 64 }
    ensures text { line.new.bytes ≡ line.old.bytes ++ decimal number }
    ensures short { length line.new.bytes ≤ length line.old.bytes + 20 }
{
    let mut buffer = Buffer::new();
    line.push_str(buffer.format(number));
}

/// `ready schema N`
pub(crate) fn ready_line(schema: u64) -> ShortLine
    ensures { result.bytes ≡ spec.ready_text schema }
{
    let mut line = ArrayString::new();
    line.push_str("ready schema ");
    push_number(&mut line, schema);
    line
}

/// `good schema N seq S`
pub(crate) fn good_line(schema: u64, seq: u64) -> ShortLine
    ensures { result.bytes ≡ spec.good_text schema seq }
{
    let mut line = ArrayString::new();
    line.push_str("good schema ");
    push_number(&mut line, schema);
    line.push_str(" seq ");
    push_number(&mut line, seq);
    line
}

/// A line of a text of at most 20 bytes and a number after it.
fn word_and_number(word: &str, number: u64) -> ShortLine
    requires { length word.now ≤ 20 }
    ensures text { result.bytes ≡ word.now ++ decimal number }
    ensures short { length result.bytes ≤ 40 }
{
    let mut line = ArrayString::new();
    line.push_str(word);
    push_number(&mut line, number);
    line
}

/// The first fault of an order file: `csv row R KIND`
#[tactic(auto, using(plant_orders::proofs::FaultNames::name_is_short))]
pub(crate) fn csv_line(fault: CsvFault) -> ShortLine
    ensures { result.bytes ≡ csv_text fault }
{
    let mut line = word_and_number("csv row ", u64::from(fault.row));
    line.push_str(" ");
    line.push_str(fault.kind.name());
    line
}

/// A line of one word.
fn one_word(word: &str) -> ShortLine
    requires { length word.now ≤ 20 }
    ensures { result.bytes ≡ word.now }
{
    let mut line = ArrayString::new();
    line.push_str(word);
    line
}

/// What comes after `fault: `.
#[tactic(auto, unfolding(crate::specs::Texts::fault_name))]
pub(crate) fn fault_name(fault: ProgramFault) -> ShortLine
    ensures text { result.bytes ≡ spec.fault_name fault }
    ensures short { length result.bytes ≤ 40 }
{
    match fault {
        ProgramFault::Store => one_word("store"),
        ProgramFault::Newer(schema) => word_and_number("newer ", schema),
        ProgramFault::Damaged(rule) => word_and_number("damaged G", u64::from(rule.number())),
        ProgramFault::Memory => one_word("memory"),
        ProgramFault::Read => one_word("read"),
        ProgramFault::Write => one_word("write"),
        ProgramFault::Endless => one_word("endless"),
        ProgramFault::Net => one_word("net"),
    }
}

/// `fault: ` and the fault's word.
pub(crate) fn fault_line(fault: ProgramFault) -> ShortLine
    ensures { result.bytes ≡ spec.fault_text fault }
{
    let mut line = ArrayString::new();
    line.push_str("fault: ");
    line.push_str(fault_name(fault).as_str());
    line
}
