//! What is answered of worklists.

use crate::page::Page;
use crate::question::StandingLot;
use plant_base::{
    BatchRow, Class, Definition, Header, Hold, Id, Items, Job, Moment, Movement, OrderRow, Recall,
    Recipe, Text, Unit,
};

/// A page of a worklist.
#[derive(Drop)]
pub enum Listed {
    /// Orders, all in the state that was asked for.
    Orders(Page<Job>),
    /// Batches, all that aren't closed or all that are.
    Batches(Page<OpenBatch>),
    /// Lots of a definition.
    Lots(LotPage),
    /// Holds of a lot.
    Holds(Page<Hold>),
    /// Recalls that weren't lifted.
    Recalls(Page<Recall>),
    /// Recalls that were lifted.
    LiftedRecalls(Page<Recall>),
    /// Holds of all lots.
    AllHolds(Page<Hold>),
    /// Commands that had references, by their numbers.
    Commands(Page<BookedCommand>),
    /// Commands that had references and name an id, by their numbers.
    History(HistoryPage),
    /// Classes.
    Classes(Page<Class>),
    /// Definitions of a class.
    Definitions(Page<Definition>),
    /// Versions of recipes, all in the state that was asked for.
    Recipes(Page<Recipe>),
    /// The ledger of a lot.
    Ledger(Page<Movement>),
    /// The lots of a definition that have stock, the oldest first.
    Stock(Page<StockedLot>),
    /// What there is of definitions of a class.
    Stocks(Page<DefinitionStock>),
}

/// A lot that has stock, and the booking that made it.
#[derive(Drop)]
pub struct StockedLot {
    /// What is known of the lot.
    pub standing: StandingLot,
    /// The first movement of its ledger; `None` where it has none, as in no valid state.
    pub born: Option<Movement>,
}

/// What there is of a definition, in its unit. An amount is 2^64 - 1 where it would be more, as in no desk that a file can hold.
#[derive(Clone, Copy)]
pub struct DefinitionStock {
    /// The definition.
    pub definition: Definition,
    /// How many of its lots have stock.
    pub lots: usize,
    /// The amount of those that are neither held nor recalled.
    pub usable: u64,
    /// The amount of those that are held.
    pub held: u64,
    /// The amount of those that open recalls reach, held or not.
    pub recalled: u64,
}

/// A command that had a reference, as its receipt has it.
#[derive(Clone, Copy)]
pub struct BookedCommand {
    /// The number of the command, 1 to [`GREATEST_SEQ`](plant_base::GREATEST_SEQ).
    pub seq: u64,
    /// The reference of the command.
    pub reference: Id,
    /// What the command's content begins with; `None` where it doesn't begin so, as in no valid state.
    pub head: Option<CommandHead>,
}

/// A command that had a reference, with its fields.
#[derive(Drop)]
pub struct NamedCommand {
    /// The command.
    pub command: BookedCommand,
    /// Its fields, in the order of its content; those that are no texts are left out, as in no valid state.
    pub fields: Items<Text>,
}

/// The commands of a page that name an id.
#[derive(Drop)]
pub struct HistoryPage {
    /// The commands of the page that name the id.
    pub commands: Items<NamedCommand>,
    /// The number of the last command of the page, whether it names the id or not: the next page begins after it. Nothing where the page has no command.
    pub last: Option<u64>,
    /// Whether more commands come after the page, whether they name the id or not.
    pub has_more: bool,
}

/// What the content of a command begins with.
#[derive(Clone, Copy)]
pub struct CommandHead {
    /// When the command was given.
    pub at: Moment,
    /// The operator who gave the command; it may be empty.
    pub by: Text,
    /// The operator's note; empty where there is none.
    pub note: Text,
    /// The word of the command, as `receive`.
    pub word: Text,
}

/// A batch in a list: what it is to make, and what is next in it (job response of IEC 62264-4).
#[derive(Clone, Copy)]
pub struct OpenBatch {
    /// The batch with its progress.
    pub row: BatchRow,
    /// What it is to make; `None` where its order or the recipe of that isn't there, as in no valid state.
    pub planned: Option<PlannedBatch>,
    /// How many phases its control recipe has.
    pub phases: usize,
    /// The phase that is next, nothing where all are done.
    pub next_phase: Option<NextPhase>,
    /// The moment of the last of its events, that of its release where there is none.
    pub last: Moment,
}

/// What a batch is to make.
#[derive(Clone, Copy)]
pub struct PlannedBatch {
    /// The order that it was released for.
    pub order: OrderRow,
    /// The header of the master recipe that the order names.
    pub header: Header,
    /// The unit of the recipe's product; `None` where the product isn't there, as in no valid state.
    pub unit: Option<Unit>,
}

/// A phase of a control recipe, and where it is done (IEC 61512-1, procedure).
#[derive(Clone, Copy)]
pub struct NextPhase {
    /// The phase.
    pub phase: Id,
    /// The unit procedure that it belongs to.
    pub unit_procedure: Id,
}

/// What there is of a definition, lot by lot.
#[derive(Drop)]
pub struct LotPage {
    /// The lots of the page that have stock.
    pub lots: Items<StandingLot>,
    /// The last lot of the page, with stock or without: the next page begins after it. Nothing where the page has no lot.
    pub last: Option<Id>,
    /// Whether more lots of the definition come after the page, with stock or without.
    pub has_more: bool,
}
