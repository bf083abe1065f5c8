use crate::finding::FoundIds;
use crate::genealogy::Genealogy;
use crate::list_question::ListQuestion;
use crate::listed::Listed;
use plant_base::{
    Amount, Batch, BatchEvent, ControlLine, Definition, Header, Id, Items, Job, Moment, Recipe,
    RecipeLine, Refusal, Sublot, Text, Unit,
};
use plant_recipe::Progress;
use plant_trace::{Direction, Node};

/// What the desk is asked.
#[derive(Clone, Copy, Debug, PartialEq, Eq)]
pub enum Question {
    /// How many commands the desk accepted, and the moment of the last.
    Desk,
    /// What is known of this lot.
    Lot(Id),
    /// What is known of this order.
    Order(Id),
    /// What is known of this batch.
    Batch(Id),
    /// The lots and batches that this one was made from, or that were made from it.
    Trace(Direction, Node),
    /// Where the goods of this lot or batch are: the lots that have stock, of it and all that it leads to.
    Stands(Node),
    /// What entered lots, what left them, and what is there: this lot, and all lots that it or this batch leads to.
    Balance(Node),
    /// The genealogy around this lot or batch, back or forward: its trace, and the edges between what that lists.
    Edges(Direction, Node),
    /// What is known of this recall.
    Recall(Id),
    /// When the last accepted command was given.
    Moment,
    /// A page of a list.
    List(ListQuestion),
    /// What is known of this definition.
    Definition(Id),
    /// The recipe of this id and version, with its lines.
    Recipe(Id, u16),
    /// The control recipe of this batch, with what was booked of each line.
    BatchLines(Id),
    /// What this order needs, and what there is of it.
    Needs(Id),
    /// The ids that begin with this one.
    Find(Id),
}

/// What the desk answers.
#[derive(Drop)]
pub enum Answer {
    /// The schema of the desk's tables, and how many commands were accepted.
    Desk { schema: u64, seq: u64 },
    /// What is known of the lot.
    Lot(LotAnswer),
    /// What is known of the order.
    Order(OrderAnswer),
    /// What is known of the batch.
    Batch(BatchView),
    /// Lots before batches, each ascending. The start is listed only where it leads to itself.
    Trace(Items<Node>),
    /// Lots with stock, ascending.
    Stands(Items<StandingLot>),
    /// Lots with stock or without, ascending.
    Balance(Items<LotBalance>),
    /// The genealogy around the lot or batch.
    Edges(Genealogy),
    /// What is known of the recall.
    Recall(RecallAnswer),
    /// 1970-01-01T00:00:00Z before the first command.
    Moment { at: Moment },
    /// A page of the list.
    List(Listed),
    /// The definition.
    Definition(Definition),
    /// The version of the recipe.
    Recipe(RecipeAnswer),
    /// The control recipe of the batch.
    BatchLines(BatchLines),
    /// The inputs of the order's recipe, by number.
    Needs(Items<Need>),
    /// The ids that begin so.
    Found(FoundIds),
    /// The question names something that isn't there.
    Unknown(Refusal),
}

/// A recall, and what it reaches.
#[derive(Drop)]
pub struct RecallAnswer {
    /// The recall.
    pub recall: Id,
    /// The lot that is recalled.
    pub lot: Id,
    /// Whether it wasn't lifted.
    pub is_open: bool,
    /// The lot and all that came of it, lots before batches, each ascending; none where the recall was lifted.
    pub nodes: Items<Node>,
}

/// A lot with its stock (material lot and sublots of IEC 62264-2).
#[derive(Drop)]
pub struct LotAnswer {
    /// The lot.
    pub lot: Id,
    /// The definition of the lot.
    pub def: Id,
    /// Whether the lot has a hold.
    pub held: bool,
    /// The stock of all its sublots.
    pub stock: u64,
    /// The sublots by number, also those with no stock.
    pub sublots: Items<Sublot>,
}

/// A lot with its stock, and whether an open recall reaches it.
#[derive(Drop)]
pub struct StandingLot {
    /// What is known of the lot.
    pub known: LotAnswer,
    /// Whether an open recall reaches the lot.
    pub recalled: bool,
}

/// A lot with its stock, and what made it so: all that entered it is all that left it and what is there.
#[derive(Drop)]
pub struct LotBalance {
    /// What is known of the lot, and where its stock is.
    pub standing: StandingLot,
    /// The unit of its definition, in which its amounts are counted; `None` where that isn't there, as in no valid state.
    pub unit: Option<Unit>,
    /// What entered it and what left it.
    pub flows: LotFlows,
}

/// What entered a lot and what left it, by how (material actual of IEC 62264-4). What was divided within it isn't counted.
#[derive(Clone, Copy)]
pub struct LotFlows {
    /// What was received as the lot.
    pub received: u64,
    /// What a batch produced as the lot.
    pub produced: u64,
    /// What was split off another lot as this one.
    pub split_in: u64,
    /// What was merged of other lots as this one.
    pub merged_in: u64,
    /// What batches consumed of it.
    pub consumed: u64,
    /// What was scrapped of it.
    pub scrapped: u64,
    /// What was split off it as other lots.
    pub split_out: u64,
    /// What of it was merged as other lots.
    pub merged_out: u64,
}

/// A version of a master recipe, with its lines (master recipe of IEC 61512-1).
#[derive(Drop)]
pub struct RecipeAnswer {
    /// The version of the recipe, with its state.
    pub recipe: Recipe,
    /// The unit of its product, in which its sizes are counted; `None` where the product isn't there, as in no valid state.
    pub unit: Option<Unit>,
    /// Its lines, by number.
    pub lines: Items<RecipeLineAnswer>,
}

/// A line of a master recipe with the unit of its amount.
#[derive(Clone, Copy)]
pub struct RecipeLineAnswer {
    /// What the line says, with amounts for the recipe's base size.
    pub line: RecipeLine,
    /// The unit of the definition that an input or an output names, `None` for a parameter or a phase.
    pub unit: Option<Unit>,
}

/// The control recipe of a batch (IEC 61512-1), and what was booked of it.
#[derive(Drop)]
pub struct BatchLines {
    /// The batch.
    pub batch: Id,
    /// The lines, by number.
    pub lines: Items<BookedLine>,
}

/// A line of a control recipe, and what was booked of it.
#[derive(Clone, Copy)]
pub struct BookedLine {
    /// The line with its unit.
    pub measured: MeasuredLine,
    /// Of an input what the batch consumed of its definition, of an output what it produced, else 0; 2^64 - 1 where it is more.
    pub booked: u64,
}

/// An input of an order's recipe, and what there is of it. An amount is 2^64 - 1 where it would be more, as in no desk that a file can hold.
#[derive(Clone, Copy)]
pub struct Need {
    /// The definition that is needed.
    pub def: Id,
    /// The unit of the definition, in which the amounts are counted; `None` where it isn't there, as in no valid state.
    pub unit: Option<Unit>,
    /// The amount for the order's size, as its batch's control recipe has it or would.
    pub asked: u64,
    /// The amount in stock of the definition's lots that are neither held nor recalled.
    pub usable: u64,
    /// What is asked and may not be used: 0 where there is enough.
    pub short: u64,
}

/// An order with its state and its batch (job order of IEC 62264-4).
#[derive(Clone, Copy)]
pub struct OrderAnswer {
    /// What the order asks for, and its state.
    pub job: Job,
    /// The batch that the order was released as, if it was.
    pub batch: Option<Id>,
}

/// A batch with all that is known of it (job response of IEC 62264-4; batch record of IEC 61512-1).
#[derive(Drop)]
pub struct BatchView {
    /// The order that it was released for, with its state.
    pub job: Job,
    /// The header of its master recipe.
    pub header: Header,
    /// The batch as it was released.
    pub batch: Batch,
    /// How far it has come: its state, attempt and next phase, and whether it is closed.
    pub progress: Progress,
    /// Its control recipe, by number.
    pub lines: Items<MeasuredLine>,
    /// What happened to it, in its order.
    pub events: Items<BatchEvent>,
    /// What it took, in its order.
    pub consumed: Items<Booking>,
    /// What it brought, in its order.
    pub produced: Items<Booking>,
}

/// A line of a control recipe with the unit of its amount.
#[derive(Clone, Copy)]
pub struct MeasuredLine {
    /// The line, with amounts scaled to the size of the order.
    pub line: ControlLine,
    /// The unit of the definition that an input or an output names, `None` for a parameter or a phase.
    pub unit: Option<Unit>,
}

/// What a batch took from a lot or brought to one (material actual of IEC 62264-4).
#[derive(Clone, Copy)]
pub struct Booking {
    /// The number of the command, 1 to [`GREATEST_SEQ`](plant_base::GREATEST_SEQ).
    pub seq: u64,
    /// The lot that was consumed or produced.
    pub lot: Id,
    /// 0 to [`GREATEST_SUBLOT`](plant_base::GREATEST_SUBLOT).
    pub sub: u16,
    /// The definition of the lot.
    pub def: Id,
    /// The unit of the definition, in which the amount and what was scrapped are counted.
    pub unit: Unit,
    /// The amount consumed or produced.
    pub amount: Amount,
    /// What was scrapped of a produced lot, of all its sublots; 0 for a consumed lot.
    pub scrapped: u128,
    /// When the command was given.
    pub at: Moment,
    /// The operator who gave the command; it may be empty.
    pub by: Text,
    /// The operator's note; empty where there is none.
    pub note: Text,
}
