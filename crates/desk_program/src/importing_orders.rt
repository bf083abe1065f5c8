//! The subcommand `import`: an order file, executed as one command.
ghost use Rattle.std.specs.Prelude.{◌≡◌, Bool, false, IfSome};
ghost use Rattle.sqlite.specs.Effect.{Database};
ghost use Rattle.sqlite.specs.Held.{state};
ghost use Rattle.sqlite.specs.State.{HasCleanDisk};
ghost use Rattle.plant_base.specs.{State, newest_schema};
ghost use Rattle.plant_keeper.specs.{IsSameDesk};
ghost use Rattle.plant_desk_store.specs.{HasCrashStates, HasForeignTables, IsDurablyAt};
ghost use Rattle.plant_desk_store.specs.{KeepsForeignTables, Represents};
ghost use Rattle.plant_orders.specs.{orders_of};
ghost use Rattle.desk_program.specs.ImportOutcomes.{CsvFaultWritten, FileEnds, ImportEnds};
ghost use Rattle.desk_program.specs.ImportOutcomes.{ImportGives, MemoryFaultWritten};
ghost use Rattle.desk_program.specs.ImportOutcomes.{NoOrdersWritten, OrdersTaken};
ghost use Rattle.desk_program.specs.Runs.{WasHonest};

use crate::adopting::{Performed, adopt, performed_of};
use crate::fault::{ProgramFault, outcome_of_turn};
use crate::lines::csv_line;
use plant_base::{Items, OrderRow};
use plant_desk_store::Desk;
use plant_keeper::Keeper;
use plant_orders::{CsvFault, ImportMetadata, OrdersFault, import, orders_from};
use plant_questions::DeskFault;
use plant_text::{take_command, write_fault, write_line};
use sqlite::{Alter, Connection};
use std::alloc::Global;
use std::io::{Read, Write};

/// Prints want of memory, as a run does.
fn write_no_memory<W: Write>(writer: &mut W) -> Result<bool, ProgramFault>
    ensures { MemoryFaultWritten (W.contents writer.old) (W.contents writer.new) result }
{
    outcome_of_turn(Err(write_fault(writer, DeskFault::Memory)))
}

/// Prints the first fault of an order file, which is a refusal. It takes no memory, so that no want of it is reported instead.
fn write_csv_fault<W: Write>(writer: &mut W, fault: CsvFault) -> Result<bool, ProgramFault>
    ensures { CsvFaultWritten fault (W.contents writer.old) (W.contents writer.new) result }
{
    match write_line(writer, csv_line(fault).as_bytes()) {
        Ok(()) => Ok(true),
        Err(_) => Err(ProgramFault::Write),
    }
}

/// Prints why a reader gave no orders.
fn write_no_orders<W: Write>(writer: &mut W, fault: OrdersFault) -> Result<bool, ProgramFault>
    ensures { NoOrdersWritten fault (W.contents writer.old) (W.contents writer.new) result }
{
    match fault {
        OrdersFault::Csv(fault) => write_csv_fault(writer, fault),
        OrdersFault::Read => Err(ProgramFault::Read),
        OrdersFault::Memory => write_no_memory(writer),
    }
}

/// Has an open keeper execute the orders that a reader gave, as one command, and prints the reply; or prints why it gave
/// none.
fn take_orders<W: Write, K: Keeper>(
    writer: &mut W,
    keeper: &mut K,
    import_metadata: ImportMetadata,
    given: Result<Items<OrderRow>, OrdersFault>,
) -> Result<bool, ProgramFault>
    requires { K.shut keeper.old ≡ false }
    ensures same { IsSameDesk K.honest K.schema K.foreign_tables keeper.old keeper.new }
    ensures taken { K.honest keeper.new → (s : State) → K.represents keeper.old s
        → OrdersTaken (K.schema keeper.old) s import_metadata given
        (W.contents writer.old) (W.contents writer.new)
        (K.represents keeper.new) (K.shut keeper.new) (K.crash_states keeper.new) result }
{
    match given {
        Ok(orders) => outcome_of_turn(take_command(
            writer,
            keeper,
            &import(import_metadata, orders),
        )),
        Err(fault) => write_no_orders(writer, fault),
    }
}

/// Has an open keeper execute the orders of an order file, which a reader gives to its end, as one command, and prints the
/// reply and an LF, as a run does. `true` where it is a refusal.
///
/// Where the file is none, its first fault is printed instead of a reply, `csv row R KIND` and an LF, which counts as a
/// refusal, and nothing is executed.
///
/// `Read`: the reader failed; nothing was executed and nothing written. `Memory`: memory was refused for the file, or by the
/// keeper. `Store`: the keeper's fault. The line of these two faults was written, `{"fault":N}` and an LF. `Write`: a
/// prefix of the line was written, and not all of it; what was executed stays.
pub fn take_file<R: Read, W: Write, K: Keeper>(
    alloc: Global,
    reader: &mut R,
    writer: &mut W,
    keeper: &mut K,
    import_metadata: ImportMetadata,
) -> Result<bool, ProgramFault>
    requires { K.shut keeper.old ≡ false }
    ensures same { IsSameDesk K.honest K.schema K.foreign_tables keeper.old keeper.new }
    ensures taken { K.honest keeper.new → (s : State) → K.represents keeper.old s
        → IfSome (R.remaining reader.old) (λ bytes. ImportEnds (K.schema keeper.old) s import_metadata
        (orders_of bytes) (W.contents writer.old) (W.contents writer.new)
        (K.represents keeper.new) (K.shut keeper.new) (K.crash_states keeper.new) result) }
    ensures ends { K.honest keeper.new → (s : State) → K.represents keeper.old s
        → FileEnds (K.schema keeper.old) s import_metadata (R.remaining reader.old)
        (W.contents writer.old) (W.contents writer.new)
        (K.represents keeper.new) (K.shut keeper.new) (K.crash_states keeper.new) result }
{
    let given = orders_from(alloc, reader);
    take_orders(writer, keeper, import_metadata, given)
}

/// Has an open desk take in an order file, and gives its store back.
fn import_into<S: Alter + Drop, R: Read, W: Write>(
    alloc: Global,
    mut desk: Desk<S>,
    reader: &mut R,
    writer: &mut W,
    import_metadata: ImportMetadata,
) -> Performed<S>
    requires { desk.is_shut ≡ false }
    ensures honest { HasCleanDisk (state S.Store result.connection)
        → HasCleanDisk (state S.Store desk.connection) }
    ensures others { HasCleanDisk (state S.Store result.connection) → (before : Database)
        → HasForeignTables (state S.Store desk.connection) desk.is_shut before
        → KeepsForeignTables before (state S.Store result.connection) }
    ensures taken { HasCleanDisk (state S.Store result.connection)
        → (s : State) → IsDurablyAt (state S.Store desk.connection) s
        → (shut : Bool) × FileEnds newest_schema s import_metadata (R.remaining reader.old)
        (W.contents writer.old) (W.contents writer.new)
        (Represents (state S.Store result.connection) shut) shut
        (HasCrashStates (state S.Store result.connection)) result.outcome }
{
    let outcome = take_file(alloc, reader, writer, &mut desk, import_metadata);
    Performed {
        outcome,
        connection: desk.close(),
    }
}

/// Adopts the store, and has the desk take in an order file, as [`take_file`] does.
pub(crate) fn import_store<S: Alter + Drop, R: Read, W: Write>(
    alloc: Global,
    connection: Connection<S>,
    reader: &mut R,
    writer: &mut W,
    import_metadata: ImportMetadata,
) -> Performed<S>
    requires { (state S.Store connection).in_transaction ≡ false }
    ensures gives { ImportGives (state S.Store connection) (state S.Store result.connection)
        import_metadata (R.remaining reader.old) (W.contents writer.old) (W.contents writer.new)
        result.outcome }
    ensures honest { WasHonest (state S.Store connection) (state S.Store result.connection) }
{
    match adopt(alloc, connection) {
        Ok(desk) => import_into(alloc, desk, reader, writer, import_metadata),
        Err(stopped) => performed_of(stopped),
    }
}
