ghost use Rattle.std.specs.Prelude.{◌≡◌, ◌↔◌, ◌^◌, IsSome, IfSome, IsTrue};
ghost use Rattle.std.specs.List.{list_all};
ghost use Rattle.plant_values.specs.Values.{is_id, is_id_byte, begins_with_letter, is_text};
ghost use Rattle.plant_values.specs.Values.{is_text_byte, is_unit, is_unit_byte, is_amount};
ghost use Rattle.plant_values.specs.Values.{is_moment};

use crate::short::{Short, ascii_str};
use std::marker::Model;

/// The greatest amount of an [`Amount`], 10^15.
pub const GREATEST_AMOUNT: u64 = 1_000_000_000_000_000;

/// The greatest [`Moment`], 9999-12-31T23:59:59Z.
pub const GREATEST_MOMENT: u64 = 253_402_300_799;

/// The greatest number of a sublot.
pub const GREATEST_SUBLOT: u16 = 999;

/// The greatest version of a recipe.
pub const GREATEST_VERSION: u16 = 999;

/// The greatest priority of an order.
pub const GREATEST_PRIORITY: u8 = 9;

/// The greatest number of a phase: one above the greatest number of phases of a recipe.
pub const GREATEST_PHASE: u8 = 128;

/// The greatest number of accepted commands, 10^15.
pub const GREATEST_SEQ: u64 = 1_000_000_000_000_000;

/// The name of a thing of the plant: 1 to 24 bytes of `A` to `Z`, `0` to `9` and `-`, the first a letter.
/// It is ordered by its bytes, a prefix first, and takes no memory.
#[derive(Clone, Copy, Debug, PartialEq, Eq, PartialOrd, Ord)]
pub struct Id {
    text: Short<24>,
}

impl Model for Id {
    ghost use Rattle.std.specs.Prelude.{List, ℕ, IsTrue};
    ghost use Rattle.plant_values.specs.Values.{is_id};

    ghost Value = { List ℕ };

    ghost view = { λ a. a.text };

    ghost invariant = { λ a. IsTrue (is_id a.text) };

    ghost inverse = { λ v. record { text = v } };
}

impl Id {
    /// Reads an id. `None` exactly where the bytes aren't one.
    pub fn read(bytes: &[u8]) -> Option<Self>
        ensures valid { IsSome result ↔ IsTrue (is_id bytes.now) }
        ensures value { IfSome result (λ id. id ≡ bytes.now) }
    {
        if !passes_id(bytes) {
            return None;
        }
        let text = Short::<24>::new(bytes)?;
        Some(Id { text })
    }

    /// The bytes, 1 to 24 of them.
    pub fn as_bytes(&self) -> &[u8]
        ensures value { result.now ≡ self.now }
        ensures valid { IsTrue (is_id self.now) }
    {
        self.text.as_bytes()
    }

    /// The id as a text, which is ASCII.
    pub fn as_str(&self) -> &str
        ensures { result.now ≡ self.now }
    {
        ascii_str(self.as_bytes())
    }
}

/// A name, a note, a place, an operator or a parameter's value: 0 to 60 bytes, each from the space to `~`.
#[derive(Clone, Copy, Debug, PartialEq, Eq, PartialOrd, Ord)]
pub struct Text {
    text: Short<60>,
}

impl Model for Text {
    ghost use Rattle.std.specs.Prelude.{List, ℕ, IsTrue};
    ghost use Rattle.plant_values.specs.Values.{is_text};

    ghost Value = { List ℕ };

    ghost view = { λ a. a.text };

    ghost invariant = { λ a. IsTrue (is_text a.text) };

    ghost inverse = { λ v. record { text = v } };
}

impl Text {
    /// Reads a text. `None` exactly where the bytes aren't one.
    pub fn read(bytes: &[u8]) -> Option<Self>
        ensures valid { IsSome result ↔ IsTrue (is_text bytes.now) }
        ensures value { IfSome result (λ text. text ≡ bytes.now) }
    {
        if !passes_text(bytes) {
            return None;
        }
        let text = Short::<60>::new(bytes)?;
        Some(Text { text })
    }

    /// The bytes, at most 60.
    pub fn as_bytes(&self) -> &[u8]
        ensures value { result.now ≡ self.now }
        ensures valid { IsTrue (is_text self.now) }
    {
        self.text.as_bytes()
    }

    /// The text as Rust's, which is ASCII.
    pub fn as_str(&self) -> &str
        ensures { result.now ≡ self.now }
    {
        ascii_str(self.as_bytes())
    }
}

/// The unit of a material definition's amounts: 1 to 8 letters and digits.
#[derive(Clone, Copy, Debug, PartialEq, Eq, PartialOrd, Ord)]
pub struct Unit {
    text: Short<8>,
}

impl Model for Unit {
    ghost use Rattle.std.specs.Prelude.{List, ℕ, IsTrue};
    ghost use Rattle.plant_values.specs.Values.{is_unit};

    ghost Value = { List ℕ };

    ghost view = { λ a. a.text };

    ghost invariant = { λ a. IsTrue (is_unit a.text) };

    ghost inverse = { λ v. record { text = v } };
}

impl Unit {
    /// Reads a unit. `None` exactly where the bytes aren't one.
    pub fn read(bytes: &[u8]) -> Option<Self>
        ensures valid { IsSome result ↔ IsTrue (is_unit bytes.now) }
        ensures value { IfSome result (λ unit. unit ≡ bytes.now) }
    {
        if !passes_unit(bytes) {
            return None;
        }
        let text = Short::<8>::new(bytes)?;
        Some(Unit { text })
    }

    /// The bytes, 1 to 8 of them.
    pub fn as_bytes(&self) -> &[u8]
        ensures value { result.now ≡ self.now }
        ensures valid { IsTrue (is_unit self.now) }
    {
        self.text.as_bytes()
    }

    /// The unit as a text, which is ASCII.
    pub fn as_str(&self) -> &str
        ensures { result.now ≡ self.now }
    {
        ascii_str(self.as_bytes())
    }
}

/// A whole number of a definition's unit, 1 to [`GREATEST_AMOUNT`].
#[derive(Clone, Copy, Debug, PartialEq, Eq, PartialOrd, Ord)]
pub struct Amount {
    number: u64,
}

impl Model for Amount {
    ghost use Rattle.std.specs.Prelude.{ℕ, IsTrue};
    ghost use Rattle.plant_values.specs.Values.{is_amount};

    ghost Value = { ℕ };

    ghost view = { λ a. a.number };

    ghost invariant = { λ a. IsTrue (is_amount a.number) };

    ghost inverse = { λ n. record { number = n } };
}

impl Amount {
    /// The amount of so many units. `None` exactly where the number is 0 or above [`GREATEST_AMOUNT`].
    pub fn new(number: u64) -> Option<Self>
        ensures valid { IsSome result ↔ IsTrue (is_amount number) }
        ensures value { IfSome result (λ amount. amount ≡ number) }
    {
        if number < 1 || number > GREATEST_AMOUNT {
            return None;
        }
        Some(Amount { number })
    }

    /// The number of units.
    pub fn get(self) -> u64
        ensures value { result ≡ self }
        ensures valid { IsTrue (is_amount self) }
    {
        self.number
    }
}

/// Whole seconds since 1970-01-01T00:00:00Z, up to the end of the year 9999.
#[derive(Clone, Copy, Debug, PartialEq, Eq, PartialOrd, Ord)]
pub struct Moment {
    seconds: u64,
}

impl Model for Moment {
    ghost use Rattle.std.specs.Prelude.{ℕ, IsTrue};
    ghost use Rattle.plant_values.specs.Values.{is_moment};

    ghost Value = { ℕ };

    ghost view = { λ a. a.seconds };

    ghost invariant = { λ a. IsTrue (is_moment a.seconds) };

    ghost inverse = { λ n. record { seconds = n } };
}

impl Moment {
    /// 1970-01-01T00:00:00Z.
    pub fn zero() -> Self
        ensures { result ≡ 0 }
    {
        Moment { seconds: 0 }
    }

    /// The moment so many seconds after 1970 began. `None` exactly where that is after the year 9999.
    pub fn new(seconds: u64) -> Option<Self>
        ensures valid { IsSome result ↔ IsTrue (is_moment seconds) }
        ensures value { IfSome result (λ moment. moment ≡ seconds) }
    {
        if seconds > GREATEST_MOMENT {
            return None;
        }
        Some(Moment { seconds })
    }

    /// The seconds since 1970 began.
    pub fn get(self) -> u64
        ensures value { result ≡ self }
        ensures valid { IsTrue (is_moment self) }
    {
        self.seconds
    }
}

fn passes_id(bytes: &[u8]) -> bool
    ensures { result ≡ is_id bytes.now }
{
    bytes.len() <= 24 && starts_with_letter(bytes) && all_id_bytes(bytes)
}

fn starts_with_letter(bytes: &[u8]) -> bool
    ensures { result ≡ begins_with_letter bytes.now }
{
    match bytes {
        [] => false,
        [first, ..] => first.is_ascii_uppercase(),
    }
}

fn all_id_bytes(bytes: &[u8]) -> bool
    ensures { result ≡ list_all is_id_byte bytes.now }
{
    bytes.iter().all(|&b| passes_id_byte(b))
}

fn passes_id_byte(b: u8) -> bool
    ensures { result ≡ is_id_byte b }
{
    b.is_ascii_uppercase() || b.is_ascii_digit() || b == b'-'
}

fn passes_text(bytes: &[u8]) -> bool
    ensures { result ≡ is_text bytes.now }
{
    bytes.len() <= 60 && all_text_bytes(bytes)
}

fn all_text_bytes(bytes: &[u8]) -> bool
    ensures { result ≡ list_all is_text_byte bytes.now }
{
    bytes.iter().all(|&b| passes_text_byte(b))
}

fn passes_text_byte(b: u8) -> bool
    ensures { result ≡ is_text_byte b }
{
    b >= b' ' && b <= b'~'
}

fn passes_unit(bytes: &[u8]) -> bool
    ensures { result ≡ is_unit bytes.now }
{
    bytes.len() >= 1 && bytes.len() <= 8 && all_unit_bytes(bytes)
}

fn all_unit_bytes(bytes: &[u8]) -> bool
    ensures { result ≡ list_all is_unit_byte bytes.now }
{
    bytes.iter().all(|&b| passes_unit_byte(b))
}

fn passes_unit_byte(b: u8) -> bool
    ensures { result ≡ is_unit_byte b }
{
    b.is_ascii_lowercase() || b.is_ascii_uppercase() || b.is_ascii_digit()
}
