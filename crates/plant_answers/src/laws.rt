//! Laws of answers and tables, each as the contract of a function that does nothing.

ghost use Rattle.plant_answers.specs.AnswerLaws.{TracesListReached, ColumnIsStock};
ghost use Rattle.plant_answers.specs.AnswerLaws.{TablesRepresentState, RecallsListReached};
ghost use Rattle.plant_answers.specs.AnswerLaws.{MarksAreThePairs, StandsListReached};
ghost use Rattle.plant_answers.specs.AnswerLaws.{EdgesAreBooked, NodesAreReached};
ghost use Rattle.plant_answers.specs.AnswerLaws.{BalancesClose, BalancesListReached};

/// A trace lists exactly what the least relation reaches that is closed under recorded consumption, production, split
/// and merge.
pub fn trace_law()
    ensures { TracesListReached }
{}

/// The answer where goods are lists exactly the lots with stock that the start is or that the least relation reaches from it,
/// with what is known of each.
pub fn stands_law()
    ensures { StandsListReached }
{}

/// The balance of a lot or batch lists exactly the lots that it is or that the least relation reaches from it, each with what
/// entered it, what left it and what is there.
///
/// In a consistent state all that entered a lot is all that left it and its stock.
pub fn balance_law()
    ensures reached { BalancesListReached }
    ensures closes { BalancesClose }
{}

/// The genealogy around a lot or batch has exactly the edges between it and what the least relation reaches from it, each with the
/// amounts of all movements that make it.
///
/// In a consistent state its nodes are exactly these.
pub fn edges_law()
    ensures booked { EdgesAreBooked }
    ensures reached { NodesAreReached }
{}

/// The stock of a sublot in the tables of a consistent state is what entered it less what left it, over all movements.
pub fn stock_law()
    ensures { ColumnIsStock }
{}

/// The tables of a state represent that state and no other.
pub fn tables_law()
    ensures { TablesRepresentState }
{}

/// What is answered of a recall lists exactly what it reaches while it is open, and nothing once it is lifted.
pub fn recall_answer_law()
    ensures { RecallsListReached }
{}

/// The marks in the tables of a state are exactly the pairs of an open recall and a node that it reaches.
pub fn marks_law()
    ensures { MarksAreThePairs }
{}
