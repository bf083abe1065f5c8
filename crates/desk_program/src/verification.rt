//! The subcommand `verify`.
ghost use Rattle.std.specs.Prelude.{◌≡◌, false, IfOk, IfErr, OnOk, MatchResult};
ghost use Rattle.std.specs.Io.KnownBytes.{Appends};
ghost use Rattle.sqlite.specs.Held.{state};
ghost use Rattle.sqlite.specs.State.{HasCleanDisk};
ghost use Rattle.plant_base.specs.{State, newest_schema};
ghost use Rattle.plant_keeper.specs.{IsSameDesk};
ghost use Rattle.plant_desk_store.specs.{IsDurablyAt};
ghost use Rattle.plant_text.specs.{with_lf};
ghost use Rattle.desk_program.specs.Texts.{good_text};
ghost use Rattle.desk_program.specs.Faults.{IsPrintFault};
ghost use Rattle.desk_program.specs.TaskOutput.{IsGoodLine, Printed, Unprinted};
ghost use Rattle.desk_program.specs.Reports.{LineStops, ReportStops, good_line};
ghost use Rattle.desk_program.specs.Runs.{AdoptedIfHonest, WasHonest};

use crate::adopting::{TaskError, adopt};
use crate::fault::ProgramFault;
use crate::lines::good_line;
use crate::printing::print_line;
use crate::summary::ask_summary;
use plant_desk_store::Desk;
use plant_keeper::Keeper;
use sqlite::{Alter, Connection};
use std::alloc::Global;
use std::io::Write;

/// Prints `good schema N seq S`: the schema of the keeper's tables, and how many commands it has accepted.
fn write_good<W: Write, K: Keeper>(writer: &mut W, keeper: &mut K) -> Result<(), ProgramFault>
    requires { K.shut keeper.old ≡ false }
    ensures same { IsSameDesk K.honest K.schema K.foreign_tables keeper.old keeper.new }
    ensures open { K.shut keeper.new ≡ false }
    ensures stays { K.honest keeper.new → (s : State) → K.represents keeper.old s → K.represents keeper.new s }
    ensures reported { K.honest keeper.new → (s : State) → K.represents keeper.old s
        → OnOk result (Appends (W.contents writer.old) (W.contents writer.new)
        (with_lf (good_text (K.schema keeper.old) s.seq))) }
    ensures stopped { K.honest keeper.new → (s : State) → K.represents keeper.old s
        → IfErr result (LineStops (good_text (K.schema keeper.old) s.seq) (W.contents writer.old)
        (W.contents writer.new)) }
    ensures fault { IfErr result IsPrintFault }
    ensures printed { MatchResult result (λ _. Printed IsGoodLine (W.contents writer.old)
        (W.contents writer.new)) (Unprinted IsGoodLine (W.contents writer.old) (W.contents writer.new)) }
{
    let at = ask_summary(keeper)?;
    print_line(writer, &good_line(at.schema, at.seq))
}

/// Does `verify FILE`: adopts the store, which tests all its tables, and prints `good schema N seq S` and an LF, S being
/// the number of commands that were accepted.
///
/// Nothing is printed before the store is adopted. A store that isn't adopted is given back with the fault of the adoption.
/// An adopted one is given back at its state with a fault of the store, of memory or of the writer. At `Write` a prefix of the
/// line was written; at every other fault nothing was.
pub fn verify<S: Alter + Drop, W: Write>(
    alloc: Global,
    connection: Connection<S>,
    writer: &mut W,
) -> Result<Desk<S>, TaskError<S>>
    requires { (state S.Store connection).in_transaction ≡ false }
    ensures valid { IfOk result (λ desk. AdoptedIfHonest (state S.Store connection)
        (state S.Store desk.connection) (λ s. IsDurablyAt (state S.Store desk.connection) s
        × Appends (W.contents writer.old) (W.contents writer.new)
        (with_lf (good_text newest_schema s.seq)))) }
    ensures stopped { IfErr result (λ stopped. ReportStops good_line (state S.Store connection)
        (state S.Store stopped.connection) (W.contents writer.old) (W.contents writer.new)
        stopped.fault) }
    ensures honest { MatchResult result
        (λ desk. WasHonest (state S.Store connection) (state S.Store desk.connection))
        (λ stopped. WasHonest (state S.Store connection) (state S.Store stopped.connection)) }
    ensures printed { MatchResult result (λ _. Printed IsGoodLine (W.contents writer.old)
        (W.contents writer.new)) (λ stopped. Unprinted IsGoodLine (W.contents writer.old)
        (W.contents writer.new) stopped.fault) }
{
    let mut desk = adopt(alloc, connection)?;
    match write_good(writer, &mut desk) {
        Ok(()) => Ok(desk),
        Err(fault) => Err(TaskError {
            fault,
            connection: desk.close(),
        }),
    }
}
