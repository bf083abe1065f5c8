//! The values of columns, each from what it stores.
ghost use Rattle.std.specs.Prelude.{◌≡◌, ◌≤◌, ◌^◌, IfOk, IfErr};
ghost use Rattle.sqlite_value.specs.declared.value.Value.TheVariants.{Int, Text as Bytes};
ghost use Rattle.sqlite_value.specs.Value.{owned};
ghost use Rattle.plant_tables_columns.specs.Kinds.{number, flag};

use plant_base::{Amount, Content, Id, Moment, Text};
use sql_tables::StoreFault;
use sqlite_value::value::ValueRef;

/// A number of any size: [`StoreFault::Store`] exactly where it is above 2^63 - 1, which no column holds.
pub fn large(n: u64) -> Result<ValueRef<'static>, StoreFault>
    ensures value { IfOk result (λ value. owned value ≡ number n) }
    // It is refused for its size alone, and then as the store's.
    ensures above { IfErr result (λ fault. (2 ^ 63 ≤ n) × (fault ≡ StoreFault.Store)) }
{
    match i64::try_from(n) {
        Ok(n) => Ok(ValueRef::Int(n)),
        Err(_) => Err(StoreFault::Store),
    }
}

/// A small number.
pub fn small(n: u16) -> ValueRef<'static>
    ensures { owned result ≡ number n }
{
    ValueRef::Int(i64::from(n))
}

/// An amount, as its number.
pub fn amount(n: Amount) -> ValueRef<'static>
    ensures { owned result ≡ number n }
{
    ValueRef::Int(n.get() as i64)
}

/// A moment, as its number of seconds since 1970-01-01T00:00:00Z.
pub fn moment(at: Moment) -> ValueRef<'static>
    ensures { owned result ≡ number at }
{
    ValueRef::Int(at.get() as i64)
}

/// 1 for true, 0 for false.
pub fn truth(is: bool) -> ValueRef<'static>
    ensures { owned result ≡ flag is }
{
    if is {
        ValueRef::Int(1)
    } else {
        ValueRef::Int(0)
    }
}

/// An id.
pub fn id(id: &Id) -> ValueRef<'_>
    ensures { owned result ≡ Bytes id.now }
{
    ValueRef::Text(id.as_bytes())
}

/// A text that people read.
pub fn text(text: &Text) -> ValueRef<'_>
    ensures { owned result ≡ Bytes text.now }
{
    ValueRef::Text(text.as_bytes())
}

/// What a command said.
pub fn content(content: &Content) -> ValueRef<'_>
    ensures { owned result ≡ Bytes content.now }
{
    ValueRef::Text(content.as_str().as_bytes())
}

/// A word of the desk's own.
pub fn word(word: &str) -> ValueRef<'_>
    ensures { owned result ≡ Bytes word.now }
{
    ValueRef::Text(word.as_bytes())
}

/// A text of ASCII.
pub fn bytes(text: &[u8]) -> ValueRef<'_>
    ensures { owned result ≡ Bytes text.now }
{
    ValueRef::Text(text)
}
