//! The fault of a lookup that want of memory is.

ghost use Rattle.std.specs.Prelude.{◌≡◌, Ok, Err, IfOk, IfErr};

use sql_tables::StoreFault;
use std::alloc::AllocError;

/// What was made of the rows of a lookup. The fault is Memory, where there was none for it.
pub(crate) fn if_memory<T>(made: Result<T, AllocError>) -> Result<T, StoreFault>
    ensures made { IfOk made (λ value. result ≡ Ok value) }
    ensures refused { IfErr made (λ _. result ≡ Err StoreFault.Memory) }
    ensures only { IfOk result (λ value. made ≡ Ok value) }
{
    match made {
        Ok(value) => Ok(value),
        Err(_) => Err(StoreFault::Memory),
    }
}
