//! The typed values of an object's members, or its first flaw.
ghost use Rattle.std.specs.Prelude.{◌≡◌, ◌≤◌, length, ◌||◌, true, IfOk, IfErr, option_copied};
ghost use Rattle.serde_json.specs.View.{view, members_view};
ghost use Rattle.plant_base.specs.{is_due, is_id, is_text, is_unit, only};
ghost use Rattle.plant_json_in.specs.Fields.{field_of, member_of, fields_of, is_listed};
ghost use Rattle.plant_json_in.specs.Fields.{chosen, first_other, other_where, none_other};
ghost use Rattle.plant_json_in.specs.Fields.{exactly, field_of_part, field_of_text};
ghost use Rattle.plant_json_in.specs.ValueLaws.{Values, fields_in};
ghost use Rattle.plant_json_in.specs.FormatErrors.{is_reported};
ghost use Rattle.plant_json_in.specs.Tables.{most_members};
ghost use Rattle.plant_json_in.specs.declared.members.MemberRule.TheVariants as rule;

use crate::command_tables::command_kind;
use crate::format_errors::ShapeError;
use crate::members::{Member, MemberRule};
use crate::question_tables::asked_kind;
use crate::words::{batch_word, line_kind, order_state, recipe_state};
use arrayvec::ArrayVec;
use plant_base::{Amount, Due, Id, JobState, Moment, RecipeState, Text, Unit, Word};
use plant_questions::{Cursor, CursorKey};
use serde_json::{Map, Value};
use std::marker::Model;

/// A typed value.
#[derive(Clone, Copy)]
pub enum Field {
    /// An id.
    Id(Id),
    /// A text.
    Text(Text),
    /// A unit.
    Unit(Unit),
    /// A due date.
    Due(Due),
    /// An amount.
    Amount(Amount),
    /// A moment.
    Moment(Moment),
    /// A whole number.
    Number(u16),
    /// A whole number that fits in eight bits.
    Small(u8),
    /// A word for a batch.
    Word(Word),
    /// The state of an order.
    OrderState(JobState),
    /// The state of a recipe.
    RecipeState(RecipeState),
    /// A cursor in a list of recipes.
    RecipeCursor(Cursor<Id, u16>),
    /// A cursor in a list of orders by their due dates.
    DueCursor(Cursor<Due, Id>),
    /// A cursor in the list of the holds of all lots.
    HoldCursor(Cursor<Id, Id>),
    /// A cursor in a ledger.
    MovementCursor(Cursor<u64, u16>),
    /// A cursor in a list of lots by the bookings that made them.
    BirthCursor(Cursor<u64, Id>),
    /// A word that chose the object's shape.
    Chosen,
    /// A list is there, whose rows are read after the other members.
    List,
    /// An object is there, whose members are read after the other members.
    Object,
    /// Nothing is there.
    Absent,
}

impl Default for Field {
    fn default() -> Self {
        Field::Absent
    }
}

/// No object has more members of its own.
const MOST_MEMBERS: usize = 8;

/// The typed values of members, in the order of the members.
#[derive(Drop)]
pub struct Fields {
    fields: ArrayVec<Field, MOST_MEMBERS>,
}

impl Model for Fields {
    ghost use Rattle.std.specs.Prelude.{List};
    ghost use Rattle.plant_json_in.specs.declared.fields.Field.{Field};

    ghost Value = { List Field };

    ghost view = { λ f. f.fields.items };
}

impl Fields {
    /// The values as a slice.
    pub fn as_slice(&self) -> &[Field]
        ensures { result.now ≡ self.now }
    {
        self.fields.as_slice()
    }
}

// ---- values

fn read_id(bytes: &[u8]) -> Option<Id>
    ensures { result ≡ only is_id bytes.now }
{
    Id::read(bytes)
}

fn read_text(bytes: &[u8]) -> Option<Text>
    ensures { result ≡ only is_text bytes.now }
{
    Text::read(bytes)
}

fn read_unit(bytes: &[u8]) -> Option<Unit>
    ensures { result ≡ only is_unit bytes.now }
{
    Unit::read(bytes)
}

fn read_due(bytes: &[u8]) -> Option<Due>
    ensures { result ≡ only is_due bytes.now }
{
    Due::read(bytes).ok()
}

/// The whole number of a range that a value is.
fn number_of(value: &Value, least: u16, greatest: u16) -> Option<Field>
    ensures { result ≡ field_of (rule.Number least greatest) (view value.now) }
{
    let number = value.as_u64()?;
    if number >= u64::from(least) && number <= u64::from(greatest) {
        Some(Field::Number(number as u16))
    } else {
        None
    }
}

/// The whole number of a range below 256 that a value is.
fn small_of(value: &Value, least: u8, greatest: u8) -> Option<Field>
    ensures { result ≡ field_of (rule.Small least greatest) (view value.now) }
{
    let number = value.as_u64()?;
    if number >= u64::from(least) && number <= u64::from(greatest) {
        Some(Field::Small(number as u8))
    } else {
        None
    }
}

fn list_of(value: &Value) -> Option<Field>
    ensures { result ≡ field_of rule.List (view value.now) }
{
    match value.as_array() {
        Some(_) => Some(Field::List),
        None => None,
    }
}

fn object_of(value: &Value) -> Option<Field>
    ensures { result ≡ field_of rule.Object (view value.now) }
{
    match value.as_object() {
        Some(_) => Some(Field::Object),
        None => None,
    }
}

/// The field of a word that chooses a shape, where it chooses one.
fn chosen<T: Copy>(kind: Option<T>) -> Option<Field>
    ensures { result ≡ chosen kind }
{
    match kind {
        Some(_) => Some(Field::Chosen),
        None => None,
    }
}

/// The typed value that a text is by a rule, where the rule asks for a text.
fn field_of_text(rule: MemberRule, text: &str) -> Option<Field>
    ensures { result ≡ field_of_text rule text.now }
{
    match rule {
        MemberRule::Id => Some(Field::Id(read_id(text.as_bytes())?)),
        MemberRule::Text => Some(Field::Text(read_text(text.as_bytes())?)),
        MemberRule::Unit => Some(Field::Unit(read_unit(text.as_bytes())?)),
        MemberRule::Due => Some(Field::Due(read_due(text.as_bytes())?)),
        MemberRule::Word => Some(Field::Word(batch_word(text)?)),
        MemberRule::OrderState => Some(Field::OrderState(order_state(text)?)),
        MemberRule::RecipeState => Some(Field::RecipeState(recipe_state(text)?)),
        MemberRule::RecipeCursor => Some(Field::RecipeCursor(Cursor::read(text)?)),
        MemberRule::DueCursor => Some(Field::DueCursor(Cursor::read(text)?)),
        MemberRule::HoldCursor => Some(Field::HoldCursor(Cursor::read(text)?)),
        MemberRule::MovementCursor => Some(Field::MovementCursor(Cursor::read(text)?)),
        MemberRule::BirthCursor => Some(Field::BirthCursor(Cursor::read(text)?)),
        MemberRule::Command => chosen(command_kind(text)),
        MemberRule::Question => chosen(asked_kind(text)),
        MemberRule::Kind => chosen(line_kind(text)),
        MemberRule::Amount
        | MemberRule::Moment
        | MemberRule::Number(_, _)
        | MemberRule::Small(_, _) => None,
        MemberRule::List | MemberRule::Object => None,
    }
}

/// The typed value that a value is by a rule.
fn field_of(rule: MemberRule, value: &Value) -> Option<Field>
    ensures { result ≡ field_of rule (view value.now) }
{
    match rule {
        MemberRule::Amount => Some(Field::Amount(Amount::new(value.as_u64()?)?)),
        MemberRule::Moment => Some(Field::Moment(Moment::new(value.as_u64()?)?)),
        MemberRule::Number(least, greatest) => number_of(value, least, greatest),
        MemberRule::Small(least, greatest) => small_of(value, least, greatest),
        MemberRule::List => list_of(value),
        MemberRule::Object => object_of(value),
        _ => field_of_text(rule, value.as_str()?),
    }
}

/// The typed value of a member that a part of a path is: numbers in digits, at most 16 of an amount and 3 of another, whatever its range.
/// `None` where it is none, and where the part isn't there though the member is needed.
pub fn field_of_part(member: Member, part: Option<&str>) -> Option<Field>
    ensures { result ≡ field_of_part member (option_copied part.entry) }
{
    let Some(text) = part else {
        return if member.is_needed() {
            None
        } else {
            Some(Field::Absent)
        };
    };
    match member.rule() {
        MemberRule::Amount => Some(Field::Amount(Amount::new(u64::read_key(text)?)?)),
        MemberRule::Number(_, _) => Some(Field::Number(u16::read_key(text)?)),
        rule => field_of_text(rule, text),
    }
}

// ---- members

/// The typed value of a member, or what is wrong with it.
fn member_of(value: &Value, member: Member) -> Result<Field, ShapeError>
    ensures { result ≡ member_of member (view value.now) }
{
    match value.get(member.name()) {
        None => {
            if member.is_needed() {
                Err(ShapeError::Missing(member))
            } else {
                Ok(Field::Absent)
            }
        }
        Some(inner) => match field_of(member.rule(), inner) {
            Some(field) => Ok(field),
            None => Err(ShapeError::Breaks(member)),
        },
    }
}

fn each_field(value: &Value, members: &[Member]) -> Result<Fields, ShapeError>
    requires { length members.now ≤ most_members }
    ensures { result ≡ fields_of members.now (view value.now) }
{
    let mut fields = ArrayVec::<Field, MOST_MEMBERS>::new();
    for member in members {
        fields.push(member_of(value, *member)?);
    }
    Ok(Fields { fields })
}

/// The typed values of the members, or the first flaw in their order. No memory is taken.
///
/// Whatever the members, what is read has the types of their rules, and a flaw says what is wrong.
/// `Missing` where a member that is needed isn't there, `Breaks` where its value breaks its rule.
pub fn fields_of(value: &Value, members: &[Member]) -> Result<Fields, ShapeError>
    requires { length members.now ≤ most_members }
    ensures reads { result ≡ fields_of members.now (view value.now) }
    ensures typed { IfOk result (λ fs. (v : Values members.now) × (fs ≡ fields_in members.now v)) }
    ensures reported { IfErr result (λ shape_error. is_reported shape_error ≡ true) }
{
    each_field(value, members)
}

/// Whether the name is that of one of the members.
fn is_listed(members: &[Member], name: &str) -> bool
    ensures { result ≡ is_listed members.now name.now }
{
    members.iter().any(|member| name == member.name())
}

/// Whether the name is that of a member of either list.
fn is_expected(some: &[Member], more: &[Member], name: &str) -> bool
    ensures { result ≡ is_listed some.now name.now || is_listed more.now name.now }
{
    is_listed(some, name) || is_listed(more, name)
}

/// The flaw of the first name that no listed member has.
fn first_other(map: &Map<String, Value>, some: &[Member], more: &[Member]) -> Result<(), ShapeError>
    ensures { result ≡ other_where (first_other some.now more.now (members_view map.now.entries)) }
{
    for (name, _) in map.iter() {
        if !is_expected(some, more, name.as_str()) {
            return Err(ShapeError::Other(read_text(name.as_bytes())));
        }
    }
    Ok(())
}

/// Sees that the object has no member of another name than the listed ones have.
///
/// `Other` is the flaw where it has one.
pub fn none_other(value: &Value, some: &[Member], more: &[Member]) -> Result<(), ShapeError>
    ensures { result ≡ none_other some.now more.now (view value.now) }
{
    match value.as_object() {
        Some(map) => first_other(map, some, more),
        None => Ok(()),
    }
}

/// The typed values of an object that has these members and no other, or its first flaw.
/// The flaws are those of [`fields_of`], then that of [`none_other`].
pub fn exactly(value: &Value, members: &[Member]) -> Result<Fields, ShapeError>
    requires { length members.now ≤ most_members }
    ensures { result ≡ exactly members.now (view value.now) }
{
    let fields = fields_of(value, members)?;
    none_other(value, members, &[])?;
    Ok(fields)
}
