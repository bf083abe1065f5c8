//! The words that choose the row of a list, those for a batch, and the states of orders and recipes.
ghost use Rattle.std.specs.Prelude.{◌≡◌};
ghost use Rattle.plant_json_in.specs.Words.{line_kind, batch_word};
ghost use Rattle.plant_json_in.specs.Words.{order_state, recipe_state};

use plant_base::{JobState, RecipeState, Word};

/// Which row of a list an object is.
#[derive(Clone, Copy, Debug, PartialEq, Eq)]
pub enum RowKind {
    /// A part of a merge.
    Part,
    /// An order.
    Order,
    /// What a recipe takes.
    In,
    /// What a recipe makes.
    Out,
    /// A parameter of a recipe.
    Parameter,
    /// A phase of a recipe.
    Phase,
}

/// The recipe's line of a kind.
/// `None` where no line has it.
pub fn line_kind(word: &str) -> Option<RowKind>
    ensures { result ≡ line_kind word.now }
{
    match word {
        "in" => Some(RowKind::In),
        "out" => Some(RowKind::Out),
        "par" => Some(RowKind::Parameter),
        "phase" => Some(RowKind::Phase),
        _ => None,
    }
}

/// The word for a batch that a text is. The ending of a state is none.
pub(crate) fn batch_word(text: &str) -> Option<Word>
    ensures { result ≡ batch_word text.now }
{
    match text {
        "start" => Some(Word::Start),
        "stop" => Some(Word::Stop),
        "hold" => Some(Word::Hold),
        "restart" => Some(Word::Restart),
        "abort" => Some(Word::Abort),
        "reset" => Some(Word::Reset),
        "pause" => Some(Word::Pause),
        "resume" => Some(Word::Resume),
        _ => None,
    }
}

/// The state of an order that a text names.
/// `None` where it names none.
pub fn order_state(text: &str) -> Option<JobState>
    ensures { result ≡ order_state text.now }
{
    match text {
        "open" => Some(JobState::Open),
        "cancelled" => Some(JobState::Cancelled),
        "released" => Some(JobState::Released),
        "finished" => Some(JobState::Finished),
        _ => None,
    }
}

/// The state of a recipe that a text names.
/// `None` where it names none.
pub fn recipe_state(text: &str) -> Option<RecipeState>
    ensures { result ≡ recipe_state text.now }
{
    match text {
        "draft" => Some(RecipeState::Draft),
        "approved" => Some(RecipeState::Approved),
        "withdrawn" => Some(RecipeState::Withdrawn),
        _ => None,
    }
}
