//! Values of the desk: ids, texts, units, amounts, moments and due dates, numbers in texts, and lists that are shown.
#![tactic(auto)]

mod digits;
mod due;
mod items;
mod joined;
mod short;
mod values;

pub use digits::read_digits;
pub use due::{Due, DueFault};
pub use items::Items;
pub use joined::{DisplayItem, Joined};
pub use values::{
    Amount, GREATEST_AMOUNT, GREATEST_MOMENT, GREATEST_PHASE, GREATEST_PRIORITY, GREATEST_SEQ,
    GREATEST_SUBLOT, GREATEST_VERSION, Id, Moment, Text, Unit,
};
