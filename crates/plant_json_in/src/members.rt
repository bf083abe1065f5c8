//! The members of commands, questions and the rows of lists: each with its name and the rule of its value.
ghost use Rattle.std.specs.Prelude.{◌≡◌, Some};
ghost use Rattle.plant_json_in.specs.Members.{name_of, rule_of, is_needed, rule_text};

use plant_base::{
    GREATEST_AMOUNT, GREATEST_MOMENT, GREATEST_PHASE, GREATEST_PRIORITY, GREATEST_SUBLOT,
    GREATEST_VERSION,
};
use std::fmt;

/// What a value may be.
#[derive(Clone, Copy, Debug, PartialEq, Eq)]
pub enum MemberRule {
    /// An id.
    Id,
    /// A text.
    Text,
    /// A unit.
    Unit,
    /// A due date.
    Due,
    /// An amount.
    Amount,
    /// A moment.
    Moment,
    /// A whole number from the first to the second.
    Number(u16, u16),
    /// A whole number from the first to the second, which fits in eight bits.
    Small(u8, u8),
    /// A word for a batch.
    Word,
    /// The state of an order.
    OrderState,
    /// The state of a recipe.
    RecipeState,
    /// A cursor in a list of recipes.
    RecipeCursor,
    /// A cursor in a list of orders by their due dates.
    DueCursor,
    /// A cursor in the list of the holds of all lots.
    HoldCursor,
    /// A cursor in a ledger.
    MovementCursor,
    /// A cursor in a list of lots by the bookings that made them.
    BirthCursor,
    /// The word of a command.
    Command,
    /// The word of a question.
    Question,
    /// The kind of a recipe's line.
    Kind,
    /// A list, whose rows have shapes of their own.
    List,
    /// An object, which has a shape of its own.
    Object,
}

impl fmt::Display for MemberRule {
    ghost output = { λ rule. Some (rule_text rule) };

    fn fmt<W: fmt::Write>(&self, f: &mut fmt::Formatter<W>) -> fmt::Result {
        match self {
            MemberRule::Id => f.write_str(
                "an id: 1 to 24 of A to Z, 0 to 9 and -, the first a letter",
            ),
            MemberRule::Text => f.write_str(
                "a text of at most 60 characters, each from the space to ~",
            ),
            MemberRule::Unit => f.write_str("a unit: 1 to 8 letters and digits"),
            MemberRule::Due => f.write_str("a date like 2027-03-01, of the years 2000 to 2099"),
            MemberRule::Amount => {
                let greatest = GREATEST_AMOUNT;
                write!(f, "a whole number from 1 to {greatest}")
            }
            MemberRule::Moment => {
                let greatest = GREATEST_MOMENT;
                write!(f, "a whole number from 0 to {greatest}")
            }
            MemberRule::Number(least, greatest) => {
                write!(f, "a whole number from {least} to {greatest}")
            }
            MemberRule::Small(least, greatest) => write!(
                f,
                "a whole number from {least} to {greatest}"
            ),
            MemberRule::Word => {
                f.write_str("one of start, hold, restart, stop, abort, reset, pause and resume")
            }
            MemberRule::OrderState => f.write_str("one of open, cancelled, released and finished"),
            MemberRule::RecipeState => f.write_str("one of draft, approved and withdrawn"),
            MemberRule::RecipeCursor => {
                f.write_str("a recipe and a version of at most 3 digits, with a dot between them")
            }
            MemberRule::DueCursor => f.write_str(
                "a due date and an order, with a dot between them",
            ),
            MemberRule::HoldCursor => f.write_str("a lot and a hold, with a dot between them"),
            MemberRule::MovementCursor => f.write_str(
                "a number of at most 16 digits and a line of at most 3, with a dot between them",
            ),
            MemberRule::BirthCursor => f.write_str(
                "a number of at most 16 digits and a lot, with a dot between them",
            ),
            MemberRule::Command => f.write_str("the word of a command"),
            MemberRule::Question => f.write_str("the word of a question"),
            MemberRule::Kind => f.write_str("one of in, out, par and phase"),
            MemberRule::List => f.write_str("a list"),
            MemberRule::Object => f.write_str("a JSON object"),
        }
    }
}

/// A member of an object. Where one name has two rules, as `unit` has, it is two members.
#[derive(Clone, Copy, Debug, PartialEq, Eq)]
pub enum Member {
    /// When a command was given.
    At,
    /// Who gave a command.
    By,
    /// The note of a command, which may be left out.
    Note,
    /// The reference of a command, which may be left out.
    Reference,
    /// The word of a command.
    Do,
    /// The word of a question.
    Ask,
    /// A class of materials.
    Class,
    /// The name of a class or a definition.
    Name,
    /// A definition of a material.
    Definition,
    /// The unit of a definition.
    Unit,
    /// A lot.
    Lot,
    /// The number of a sublot.
    Sub,
    /// An amount of a material.
    Amount,
    /// Where a sublot lies.
    Place,
    /// The lot that a command makes.
    New,
    /// The parts of a merge.
    Parts,
    /// A hold.
    Hold,
    /// A recall.
    Recall,
    /// A recipe.
    Recipe,
    /// The version of a recipe.
    Version,
    /// What a recipe makes.
    Product,
    /// The amount that a recipe's lines are written for.
    Base,
    /// The least size of a recipe's orders.
    Least,
    /// The greatest size of a recipe's orders.
    Greatest,
    /// The title of a recipe.
    Title,
    /// The lines of a recipe.
    Lines,
    /// The orders of an import.
    Orders,
    /// An order.
    Order,
    /// A batch.
    Batch,
    /// The word of a batch command.
    Word,
    /// The number of a phase.
    Phase,
    /// The size of an order.
    Size,
    /// When an order is due.
    Due,
    /// The priority of an order.
    Priority,
    /// The kind of a recipe's line.
    Kind,
    /// The amount of an input or an output.
    Quantity,
    /// The name of a parameter.
    Parameter,
    /// The value of a parameter.
    Value,
    /// The unit procedure of a phase.
    UnitProcedure,
    /// The operation of a phase.
    Operation,
    /// The name of a phase.
    PhaseName,
    /// The state of the orders of a list.
    State,
    /// The id that the rows of a page come after, which may be left out.
    Above,
    /// The state of the recipes of a list.
    RecipeState,
    /// The cursor that the recipes of a page come after, which may be left out.
    AfterRecipe,
    /// The cursor that the orders of a page by their due dates come after, which may be left out.
    AfterDue,
    /// The cursor that the holds of a page of all lots come after, which may be left out.
    AfterHold,
    /// The cursor that the movements of a page come after, which may be left out.
    AfterMovement,
    /// The cursor that the lots of a page by the bookings that made them come after, which may be left out.
    AfterBirth,
    /// The number that the commands of a page come after, which may be left out.
    AfterNumber,
    /// The command that is to be checked.
    Command,
    /// The id that others are to begin with, or that commands are to name.
    Beginning,
}

impl Member {
    /// Its name, and the rule of its value.
    fn entry(self) -> (&'static str, MemberRule)
        ensures name { result.0.now ≡ name_of self }
        ensures rule { result.1 ≡ rule_of self }
    {
        match self {
            Member::At => ("at", MemberRule::Moment),
            Member::By => ("by", MemberRule::Text),
            Member::Note => ("note", MemberRule::Text),
            Member::Reference => ("ref", MemberRule::Id),
            Member::Do => ("do", MemberRule::Command),
            Member::Ask => ("ask", MemberRule::Question),
            Member::Class => ("class", MemberRule::Id),
            Member::Name => ("name", MemberRule::Text),
            Member::Definition => ("def", MemberRule::Id),
            Member::Unit => ("unit", MemberRule::Unit),
            Member::Lot => ("lot", MemberRule::Id),
            Member::Sub => ("sub", MemberRule::Number(0, GREATEST_SUBLOT)),
            Member::Amount => ("amount", MemberRule::Amount),
            Member::Place => ("place", MemberRule::Text),
            Member::New => ("new", MemberRule::Id),
            Member::Parts => ("parts", MemberRule::List),
            Member::Hold => ("hold", MemberRule::Id),
            Member::Recall => ("recall", MemberRule::Id),
            Member::Recipe => ("recipe", MemberRule::Id),
            Member::Version => ("version", MemberRule::Number(1, GREATEST_VERSION)),
            Member::Product => ("product", MemberRule::Id),
            Member::Base => ("base", MemberRule::Amount),
            Member::Least => ("min", MemberRule::Amount),
            Member::Greatest => ("max", MemberRule::Amount),
            Member::Title => ("title", MemberRule::Text),
            Member::Lines => ("lines", MemberRule::List),
            Member::Orders => ("orders", MemberRule::List),
            Member::Order => ("order", MemberRule::Id),
            Member::Batch => ("batch", MemberRule::Id),
            Member::Word => ("word", MemberRule::Word),
            Member::Phase => ("phase", MemberRule::Small(1, GREATEST_PHASE)),
            Member::Size => ("size", MemberRule::Amount),
            Member::Due => ("due", MemberRule::Due),
            Member::Priority => ("priority", MemberRule::Small(1, GREATEST_PRIORITY)),
            Member::Kind => ("kind", MemberRule::Kind),
            Member::Quantity => ("qty", MemberRule::Amount),
            Member::Parameter => ("name", MemberRule::Id),
            Member::Value => ("value", MemberRule::Text),
            Member::UnitProcedure => ("unit", MemberRule::Id),
            Member::Operation => ("oper", MemberRule::Id),
            Member::PhaseName => ("phase", MemberRule::Id),
            Member::State => ("state", MemberRule::OrderState),
            Member::Above => ("above", MemberRule::Id),
            Member::RecipeState => ("state", MemberRule::RecipeState),
            Member::AfterRecipe => ("above", MemberRule::RecipeCursor),
            Member::AfterDue => ("above", MemberRule::DueCursor),
            Member::AfterHold => ("above", MemberRule::HoldCursor),
            Member::AfterMovement => ("above", MemberRule::MovementCursor),
            Member::AfterBirth => ("above", MemberRule::BirthCursor),
            Member::AfterNumber => ("above", MemberRule::Amount),
            Member::Command => ("command", MemberRule::Object),
            Member::Beginning => ("id", MemberRule::Id),
        }
    }

    /// Its name.
    pub fn name(self) -> &'static str
        ensures { result.now ≡ name_of self }
    {
        self.entry().0
    }

    /// What its value may be.
    pub fn rule(self) -> MemberRule
        ensures { result ≡ rule_of self }
    {
        self.entry().1
    }

    /// Whether it must be there.
    pub fn is_needed(self) -> bool
        ensures { result ≡ is_needed self }
    {
        match self {
            Member::Note | Member::Reference => false,
            Member::Above | Member::AfterRecipe | Member::AfterHold => false,
            Member::AfterMovement | Member::AfterBirth => false,
            Member::AfterDue | Member::AfterNumber => false,
            _ => true,
        }
    }
}
