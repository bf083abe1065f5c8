//! Cursors in lists whose rows have keys of two values, and how such a cursor is written.
ghost use Rattle.std.specs.Prelude.{◌≡◌};
ghost use Rattle.plant_base.specs.{digits_of, is_due, is_id, only};
ghost use Rattle.plant_questions.specs.Cursors.{cursor_in};

use plant_base::{Due, Id, read_digits};

/// A row as a cursor in a list that is ordered by two values. It needn't be there.
#[derive(Clone, Copy, Debug, PartialEq, Eq)]
pub struct Cursor<A, B> {
    /// The value by which the list is ordered first.
    pub first: A,
    /// The value by which rows are ordered whose first values are the same.
    pub second: B,
}

/// A value that a list is ordered by, and how it is written in a cursor.
pub trait CursorKey: Copy {
    ghost use Rattle.std.specs.Prelude.{◌≡◌, ℕ, List, Option};

    /// The value that a text is.
    ghost key: { List ℕ → Option Self };

    /// The value that a text is, if it is one.
    fn read_key(text: &str) -> Option<Self>
        ensures { result ≡ key text.now };
}

/// An id.
impl CursorKey for Id {
    ghost key = { only is_id };

    fn read_key(text: &str) -> Option<Self> {
        Id::read(text.as_bytes())
    }
}

/// A due date.
impl CursorKey for Due {
    ghost key = { only is_due };

    fn read_key(text: &str) -> Option<Self> {
        Due::read(text.as_bytes()).ok()
    }
}

/// A number of at most 3 digits.
impl CursorKey for u16 {
    ghost key = { digits_of 3 };

    fn read_key(text: &str) -> Option<Self> {
        let number = read_digits(text.as_bytes(), 3)?;
        Some(number as u16)
    }
}

/// A number of at most 16 digits.
impl CursorKey for u64 {
    ghost key = { digits_of 16 };

    fn read_key(text: &str) -> Option<Self> {
        read_digits(text.as_bytes(), 16)
    }
}

impl<A: CursorKey, B: CursorKey> Cursor<A, B> {
    /// The cursor that a text names: its two values with a dot between them.
    /// `None` where the text isn't written so.
    pub fn read(text: &str) -> Option<Self>
        ensures { result ≡ cursor_in A.key B.key text.now }
    {
        let (first, second) = text.split_once('.')?;
        Some(Cursor {
            first: A::read_key(first)?,
            second: B::read_key(second)?,
        })
    }
}
