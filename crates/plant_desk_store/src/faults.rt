//! The faults of the desk that those below it are.

ghost use Rattle.std.specs.Prelude.{◌≡◌};
ghost use Rattle.plant_desk_store.specs.Faults as spec;

use plant_questions::DeskFault;
use plant_tables::Loaded;
use plant_view::ViewFault;
use sql_tables::StoreFault;

/// The fault of the desk that a fault of its store is.
pub(crate) fn fault_of(fault: StoreFault) -> DeskFault
    ensures { result ≡ spec.desk_fault fault }
{
    match fault {
        StoreFault::Store => DeskFault::Store,
        StoreFault::Memory => DeskFault::Memory,
    }
}

/// The fault of the desk where lookups over its store, or what is made of their rows, came to none.
pub(crate) fn fault_in(fault: ViewFault<StoreFault>) -> DeskFault
    ensures { result ≡ spec.lookup_fault fault }
{
    match fault {
        ViewFault::View(fault) => fault_of(fault),
        ViewFault::Memory => DeskFault::Memory,
    }
}

/// What lookups came to, as the desk reports it.
pub(crate) fn looked_up<T>(answer: Result<T, ViewFault<StoreFault>>) -> Result<T, DeskFault>
    ensures { result ≡ spec.looked_up answer }
{
    match answer {
        Ok(answer) => Ok(answer),
        Err(fault) => Err(fault_in(fault)),
    }
}

/// The rows that a test reads. Store where a table isn't declared as its definition says, and where the store failed; Memory
/// where there was none.
pub(crate) fn rows_to_test(read: Result<Option<Loaded>, StoreFault>) -> Result<Loaded, DeskFault>
    ensures { result ≡ spec.rows_to_test read }
{
    match read {
        Ok(Some(loaded)) => Ok(loaded),
        Ok(None) => Err(DeskFault::Store),
        Err(fault) => Err(fault_of(fault)),
    }
}
