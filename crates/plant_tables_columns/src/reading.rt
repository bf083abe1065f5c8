//! The value of a column, read by its rule.

ghost use Rattle.std.specs.Prelude.{◌≡◌, ◌==◌, length, is_some, option_map};
ghost use Rattle.sqlite.specs.Order.{column};
ghost use Rattle.sqlite_value.specs.Value.{owned};
ghost use Rattle.plant_tables_columns.specs.Reading.{text_in, integer_in, is_null, id_from};
ghost use Rattle.plant_tables_columns.specs.Reading.{text_from, unit_from, due_from, number_in};
ghost use Rattle.plant_tables_columns.specs.Reading.{number_from, amount_from, moment_from};
ghost use Rattle.plant_tables_columns.specs.Reading.{sublot_number_from, line_number};
ghost use Rattle.plant_tables_columns.specs.Reading.{line_number_from, flag_from, id_or_null};
ghost use Rattle.plant_tables_columns.specs.Reading.{sublot_or_null, moment_or_null};
ghost use Rattle.plant_tables_columns.specs.Reading.{readable_or_null, is_empty, is_zero};

use plant_base::{Amount, Due, GREATEST_SUBLOT, Id, Moment, Text, Unit};
use sqlite::Row;
use sqlite::types::ValueRef;

/// The value of a column, the first being 0, and NULL where there is no such column.
pub fn value(row: &Row, at: usize) -> ValueRef<'_>
    ensures { owned result ≡ column row.now at }
{
    match row.get_ref(at) {
        Ok(value) => value,
        Err(_) => ValueRef::Null,
    }
}

/// Where the row has so many columns.
pub(crate) fn columns(row: &Row, count: usize) -> Option<()>
    ensures { is_some result ≡ (length row.now == count) }
{
    if row.column_count() == count {
        Some(())
    } else {
        None
    }
}

/// The bytes of a text.
pub(crate) fn bytes(row: &Row, at: usize) -> Option<&[u8]>
    ensures { option_map (λ bytes. bytes.now) result ≡ text_in (column row.now at) }
{
    match value(row, at) {
        ValueRef::Text(bytes) => Some(bytes),
        ValueRef::Null | ValueRef::Int(_) | ValueRef::Real(_) | ValueRef::Blob(_) => None,
    }
}

/// A whole number.
pub(crate) fn integer(row: &Row, at: usize) -> Option<i64>
    ensures { result ≡ integer_in (column row.now at) }
{
    match value(row, at) {
        ValueRef::Int(n) => Some(n),
        ValueRef::Null | ValueRef::Real(_) | ValueRef::Text(_) | ValueRef::Blob(_) => None,
    }
}

/// Whether the column of the row with this index is NULL.
pub(crate) fn is_null(row: &Row, at: usize) -> bool
    ensures { result ≡ is_null (column row.now at) }
{
    match value(row, at) {
        ValueRef::Null => true,
        ValueRef::Int(_) | ValueRef::Real(_) | ValueRef::Text(_) | ValueRef::Blob(_) => false,
    }
}

/// The id in a column. `None` where there is none.
#[tactic(auto, unfolding(crate::specs::Reading::id_from))]
pub fn id(row: &Row, at: usize) -> Option<Id>
    ensures { result ≡ id_from (column row.now at) }
{
    Id::read(bytes(row, at)?)
}

/// A text that people read.
#[tactic(auto, unfolding(crate::specs::Reading::text_from))]
pub(crate) fn text(row: &Row, at: usize) -> Option<Text>
    ensures { result ≡ text_from (column row.now at) }
{
    Text::read(bytes(row, at)?)
}

/// A unit.
#[tactic(auto, unfolding(crate::specs::Reading::unit_from))]
pub(crate) fn unit(row: &Row, at: usize) -> Option<Unit>
    ensures { result ≡ unit_from (column row.now at) }
{
    Unit::read(bytes(row, at)?)
}

/// A due date.
#[tactic(auto, unfolding(crate::specs::Reading::due_from))]
pub(crate) fn due(row: &Row, at: usize) -> Option<Due>
    ensures { result ≡ due_from (column row.now at) }
{
    Due::read(bytes(row, at)?).ok()
}

/// The number, where it is from `low` to `high`.
#[tactic(auto, unfolding(crate::specs::Reading::number_in))]
fn number_within(n: &i64, low: u64, high: u64) -> Option<u64>
    ensures { result ≡ number_in low high n.now }
{
    let n = u64::try_from(*n).ok()?;
    if low <= n && n <= high { Some(n) } else { None }
}

/// The number, where it is from `low` to `high`.
#[tactic(auto, unfolding(crate::specs::Reading::number_in))]
fn small_within(n: &i64, low: u16, high: u16) -> Option<u16>
    ensures { result ≡ number_in low high n.now }
{
    let n = u16::try_from(*n).ok()?;
    if low <= n && n <= high { Some(n) } else { None }
}

/// The number, where it is from `low` to `high`.
#[tactic(auto, unfolding(crate::specs::Reading::number_in))]
pub(crate) fn tiny_within(n: &i64, low: u8, high: u8) -> Option<u8>
    ensures { result ≡ number_in low high n.now }
{
    let n = u8::try_from(*n).ok()?;
    if low <= n && n <= high { Some(n) } else { None }
}

/// The whole number in a column, where it is from `low` to `high`. `None` where there is no such number.
#[tactic(auto, unfolding(crate::specs::Reading::number_from))]
pub fn number(row: &Row, at: usize, low: u64, high: u64) -> Option<u64>
    ensures { result ≡ number_from low high (column row.now at) }
{
    let n = integer(row, at)?;
    number_within(&n, low, high)
}

/// A whole number from `low` to `high`.
#[tactic(auto, unfolding(crate::specs::Reading::number_from))]
pub(crate) fn small(row: &Row, at: usize, low: u16, high: u16) -> Option<u16>
    ensures { result ≡ number_from low high (column row.now at) }
{
    let n = integer(row, at)?;
    small_within(&n, low, high)
}

/// A whole number from `low` to `high`.
#[tactic(auto, unfolding(crate::specs::Reading::number_from))]
pub(crate) fn tiny(row: &Row, at: usize, low: u8, high: u8) -> Option<u8>
    ensures { result ≡ number_from low high (column row.now at) }
{
    let n = integer(row, at)?;
    tiny_within(&n, low, high)
}

/// An amount.
#[tactic(auto, unfolding(crate::specs::Reading::number_from, crate::specs::Reading::number_in))]
pub(crate) fn amount(row: &Row, at: usize) -> Option<Amount>
    ensures { result ≡ amount_from (column row.now at) }
{
    let n = integer(row, at)?;
    Amount::new(u64::try_from(n).ok()?)
}

/// A moment, in seconds since 1970.
#[tactic(auto, unfolding(crate::specs::Reading::number_from, crate::specs::Reading::number_in))]
pub(crate) fn moment(row: &Row, at: usize) -> Option<Moment>
    ensures { result ≡ moment_from (column row.now at) }
{
    let n = integer(row, at)?;
    Moment::new(u64::try_from(n).ok()?)
}

/// The number of a sublot.
pub(crate) fn sublot_number(row: &Row, at: usize) -> Option<u16>
    ensures { result ≡ sublot_number_from (column row.now at) }
{
    small(row, at, 0, GREATEST_SUBLOT)
}

/// The number of a line, 1 to 65535, and 0 for a number that no line can have.
#[tactic(auto, unfolding(crate::specs::Reading::line_number_from))]
pub(crate) fn line_number(row: &Row, at: usize) -> Option<u16>
    ensures { result ≡ line_number_from (column row.now at) }
{
    let n = integer(row, at)?;
    Some(small_within(&n, 1, u16::MAX).unwrap_or(0))
}

/// 1 for true, 0 for false.
#[tactic(auto, unfolding(crate::specs::Reading::flag_from))]
pub(crate) fn flag(row: &Row, at: usize) -> Option<bool>
    ensures { result ≡ flag_from (column row.now at) }
{
    let n = number(row, at, 0, 1)?;
    Some(n >= 1)
}

/// An id or none. `None` where there are bytes that are no id.
#[tactic(auto, unfolding(crate::specs::Reading::id_or_null))]
pub(crate) fn optional_id(row: &Row, at: usize) -> Option<Option<Id>>
    ensures { result ≡ id_or_null (column row.now at) }
{
    if is_null(row, at) {
        return Some(None);
    }
    Some(Some(id(row, at)?))
}

/// The number of a sublot or none. `None` where there is a number that no sublot can have.
#[tactic(auto, unfolding(crate::specs::Reading::sublot_or_null))]
pub(crate) fn optional_sublot(row: &Row, at: usize) -> Option<Option<u16>>
    ensures { result ≡ sublot_or_null (column row.now at) }
{
    if is_null(row, at) {
        return Some(None);
    }
    Some(Some(sublot_number(row, at)?))
}

/// A moment or none. `None` where there is a number that is no moment.
#[tactic(auto, unfolding(crate::specs::Reading::moment_or_null))]
pub(crate) fn optional_moment(row: &Row, at: usize) -> Option<Option<Moment>>
    ensures { result ≡ moment_or_null (column row.now at) }
{
    if is_null(row, at) {
        return Some(None);
    }
    Some(Some(moment(row, at)?))
}

/// A text that people read, or none. `None` where there are bytes that are no such text.
#[tactic(auto, unfolding(crate::specs::Reading::readable_or_null))]
pub(crate) fn optional_text(row: &Row, at: usize) -> Option<Option<Text>>
    ensures { result ≡ readable_or_null (column row.now at) }
{
    if is_null(row, at) {
        return Some(None);
    }
    Some(Some(text(row, at)?))
}

/// Whether it is the empty text.
#[tactic(auto, unfolding(crate::specs::Reading::is_empty))]
pub(crate) fn is_empty(row: &Row, at: usize) -> bool
    ensures { result ≡ is_empty (column row.now at) }
{
    match bytes(row, at) {
        Some(bytes) => bytes.is_empty(),
        None => false,
    }
}

/// Whether it is the number 0.
#[tactic(auto, unfolding(crate::specs::Reading::is_zero))]
pub(crate) fn is_zero(row: &Row, at: usize) -> bool
    ensures { result ≡ is_zero (column row.now at) }
{
    match integer(row, at) {
        Some(n) => n == 0,
        None => false,
    }
}
