//! Lists of commands over a keeper.

ghost use Rattle.std.specs.Prelude.{◌≡◌, ◌≢◌, ◌≤◌, [], false, true, Some, length};
ghost use Rattle.plant_base.specs.{State};
ghost use Rattle.plant_keeper.specs.{IsSameDesk};
ghost use Rattle.plant_questions.specs.declared.reply.DeskFault.TheVariants as fault;
ghost use Rattle.plant_desk_store.specs.Runs.{Ran};

use plant_base::{Envelope, Items};
use plant_keeper::{Keeper, RunReport};
use plant_questions::{DeskFault, Reply};
use std::alloc::Global;

/// Executes commands over an open keeper in order, up to the first fault. Room for the replies is taken first; where it
/// is refused, nothing is executed.
pub(crate) fn run_over<K: Keeper>(alloc: Global, keeper: &mut K, list: &[Envelope]) -> RunReport
    requires { K.shut keeper.old ≡ false }
    ensures same { IsSameDesk K.honest K.schema K.foreign_tables keeper.old keeper.new }
    ensures within { length result.replies ≤ length list.now }
    ensures is_live { result.end ≢ Some DeskFault.Shut }
    ensures ran { K.honest keeper.new → (s : State) → K.represents keeper.old s
        → Ran s list.now result.replies result.end (K.represents keeper.new) (K.crash_states keeper.new)
        (K.shut keeper.new) }
{
    let mut items = Vec::new(alloc);
    if items.reserve(list.len()).is_err() {
        return report(items, Some(DeskFault::Memory));
    }
    for envelope in list {
        match keeper.execute(envelope) {
            Ok(reply) => items.push_reserved(reply),
            Err(fault) => return report(items, Some(fault)),
        }
    }
    report(items, None)
}

fn report(replies: Vec<Reply>, end: Option<DeskFault>) -> RunReport
    ensures replies { result.replies ≡ replies.items }
    ensures end { result.end ≡ end }
{
    RunReport {
        replies: Items::new(replies),
        end,
    }
}
