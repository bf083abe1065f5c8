//! The rules of stored values.

/// What a stored value has to be.
#[derive(Clone, Copy, Debug, PartialEq, Eq)]
pub enum ValueRule {
    /// An id.
    Id,
    /// An id, or NULL.
    IdOrNull,
    /// An id, or the empty text.
    IdOrEmpty,
    /// A text of at most 60 bytes, each from the space to `~`.
    Text,
    /// Such a text, or NULL.
    TextOrNull,
    /// Any text.
    AnyText,
    /// A unit.
    Unit,
    /// A date of the years 2000 to 2099.
    Due,
    /// A whole number from the first to the second.
    Number(u64, u64),
    /// A whole number from the first to the second, or NULL.
    NumberOrNull(u64, u64),
    /// Any whole number.
    Whole,
    /// The word of a recipe's state.
    RecipeState,
    /// The word of an order's state.
    JobState,
    /// The word of a batch's state.
    BatchState,
    /// The word of a recall's state.
    RecallState,
    /// The word of what happened to a batch.
    EventWord,
}
