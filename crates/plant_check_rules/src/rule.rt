//! The rules of valid tables.

ghost use Rattle.std.specs.Prelude.{◌≡◌};
ghost use Rattle.plant_check_rules.specs.Numbered.{rule_number};

/// A rule that the tables of a desk obey, in the order in which they are tested.
#[derive(Clone, Copy, Debug, PartialEq, Eq)]
pub enum Rule {
    /// Each table is declared with its columns, and none of a later schema exists; meta has one row, with a schema, a number
    /// of accepted commands and a moment.
    Tables,
    /// Each value obeys its rule, and each line has the columns of its kind.
    Values,
    /// Each definition's class is there.
    Classes,
    /// Each recipe is well formed, its lines are numbered from 1 on, and what it names is there.
    Recipes,
    /// Each order's recipe and size are there, and it has a batch, open or closed, as its state says.
    Orders,
    /// Each batch has its order, and its lines are the control recipe that this asks for.
    Batches,
    /// Each sublot's stock is what entered it less what left it.
    Stocks,
    /// Each lot has its definition and its sublots, and each sublot came to be once.
    Lots,
    /// Each movement has the columns of its kind, and what it names is there and of the right definition.
    Movements,
    /// Each event of a batch was allowed, and the batch has come as far as its columns say.
    Events,
    /// Numbers and lines of movements and events are those of commands, and moments don't fall.
    Numbers,
    /// Nothing was made from itself, and the edges that are kept are those of the movements.
    Descent,
    /// Each receipt has a number of its own that was given, and its content is made of what contents are made of.
    Receipts,
    /// Each recall's lot is there, its lifting fits its state and no moment of it is to come, and the marks that are
    /// kept are those of what the open ones reach.
    Recalls,
}

impl Rule {
    /// Its number, 1 to 14.
    pub fn number(self) -> u8
        ensures { result ≡ rule_number self }
    {
        match self {
            Rule::Tables => 1,
            Rule::Values => 2,
            Rule::Classes => 3,
            Rule::Recipes => 4,
            Rule::Orders => 5,
            Rule::Batches => 6,
            Rule::Stocks => 7,
            Rule::Lots => 8,
            Rule::Movements => 9,
            Rule::Events => 10,
            Rule::Numbers => 11,
            Rule::Descent => 12,
            Rule::Receipts => 13,
            Rule::Recalls => 14,
        }
    }
}
