//! The items of a list, shown one after the other.
ghost use Rattle.std.specs.Prelude.{ℕ, List, Some};
ghost use Rattle.std.specs.List.{flat_map};
ghost use Rattle.std.specs.Fmt.{WritesOnOk};

use std::fmt;

/// How an item of a list is shown.
pub trait DisplayItem<T>: Copy {
    ghost text: { Self → T → List ℕ };

    /// Writes the text of an item.
    fn show<W: fmt::Write>(&self, item: &T, f: &mut fmt::Formatter<W>) -> fmt::Result
        ensures { WritesOnOk W.write_str_gives f.old result (text self.now item.now) f.new };
}

/// Each item of a list in its order, as the second part shows it.
#[derive(Clone, Copy)]
pub struct Joined<'a, T, S>(pub &'a [T], pub S);

impl<T, S: DisplayItem<T>> fmt::Display for Joined<'_, T, S> {
    ghost output = { λ e. Some (flat_map (S.text e.1) e.0.now) };

    fn fmt<W: fmt::Write>(&self, f: &mut fmt::Formatter<W>) -> fmt::Result {
        for item in self.0 {
            self.1.show(item, f)?;
        }
        Ok(())
    }
}
