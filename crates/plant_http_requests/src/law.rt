//! The laws of tasks, as the contracts of functions that do nothing.
ghost use Rattle.plant_http_requests.specs.Law.{AnInputAsksOneThing, ABodyIsCheckedAsItIsExecuted};
ghost use Rattle.plant_http_requests.specs.Law.{AnExecutedCommandHasItsCondition, AnExecutedCommandHasItsReference};
ghost use Rattle.plant_http_requests.specs.Law.{AnExecutedCommandIsItsSenders};

/// An input asks for one thing: what is said of its task isn't said of another.
pub fn task_law()
    ensures { AnInputAsksOneThing }
{}

/// What `/v1/check` checks is the command that `/v1/commands` would execute, a reference that it needs aside.
pub fn check_law()
    ensures { ABodyIsCheckedAsItIsExecuted }
{}

/// Where commands have to have references, the one that an input has executed has one.
pub fn reference_law()
    ensures { AnExecutedCommandHasItsReference }
{}

/// Where a field says whose commands a request may bring, the one that an input has executed is that operator's.
pub fn sender_law()
    ensures { AnExecutedCommandIsItsSenders }
{}

/// A command that an input has executed is under the condition that the input's head says, and no condition is made where it says none.
pub fn condition_law()
    ensures { AnExecutedCommandHasItsCondition }
{}
