//! Why a command is refused whatever the desk's state, though each of its members keeps its rule.
ghost use Rattle.std.specs.Prelude.{◌≡◌, ◌<◌, ◌↔◌, length, true, not, Some, None, IfSome};
ghost use Rattle.plant_recipe.specs.{repeats, fits};
ghost use Rattle.plant_base.specs.{is_same_sublot};
ghost use Rattle.plant_rules.specs.{is_well_formed_body};
ghost use Rattle.plant_text_checks.specs.CommandErrors.{index_of, pair_of, parts_error};
ghost use Rattle.plant_text_checks.specs.CommandErrors.{orders_error, lines_error};
ghost use Rattle.plant_text_checks.specs.CommandErrors.{amounts_error, recipe_error, list_error};
ghost use Rattle.plant_text_checks.specs.CommandErrors.{command_error_of, command_error_text};

use plant_base::{
    Amount, Command, GREATEST_AMOUNT, GREATEST_ORDERS, GREATEST_PARTS, Header, Id, OrderRow, Part,
    RecipeLine,
};
use plant_recipe::{GREATEST_LINES, has_output_of, has_some_phase, is_repeated_by, scales_within};
use std::fmt;

/// What is wrong with a command as a whole. Items of lists are counted from 1 on.
#[derive(Clone, Copy, Debug, PartialEq, Eq)]
pub enum CommandError {
    /// A merge of so many parts.
    Parts(usize),
    /// Two parts of a merge take from one sublot.
    SamePart(usize, usize),
    /// An import of so many orders.
    Orders(usize),
    /// A recipe of so many lines.
    Lines(usize),
    /// A recipe whose least size is above its greatest.
    Sizes,
    /// A recipe without a phase.
    NoPhase,
    /// A recipe whose product is none of its outputs.
    NoProduct(Id),
    /// Two lines of a recipe are inputs or outputs of one definition, or parameters of one name.
    SameLine(usize, usize),
    /// A line of a recipe whose amount, scaled from the base to the greatest size, is above the greatest amount.
    TooMuch(usize),
    /// A number is out of its range. No line has it, since faults of the members' rules are reported before.
    Number,
}

impl fmt::Display for CommandError {
    ghost output = { λ command_error. Some (command_error_text command_error) };

    fn fmt<W: fmt::Write>(&self, f: &mut fmt::Formatter<W>) -> fmt::Result {
        match self {
            CommandError::Parts(count) => {
                write!(f, "parts has {count} items, and a merge takes 1 to 16")
            }
            CommandError::SamePart(first, second) => {
                write!(f, "parts {second}: the sublot of parts {first} once more")
            }
            CommandError::Orders(count) => {
                write!(f, "orders has {count} items, and an import at most 1000")
            }
            CommandError::Lines(count) => write!(
                f,
                "lines has {count} items, and a recipe 1 to 128"
            ),
            CommandError::Sizes => f.write_str("min is above max"),
            CommandError::NoPhase => f.write_str("no line is a phase"),
            CommandError::NoProduct(product) => {
                let name = product.as_str();
                write!(f, "no line has the product {name} as an output")
            }
            CommandError::SameLine(first, second) => {
                write!(f, "lines {second}: what lines {first} is for, once more")
            }
            CommandError::TooMuch(number) => {
                let greatest = GREATEST_AMOUNT;
                write!(
                    f,
                    "lines {number}: qty scaled from base to max is above {greatest}"
                )
            }
            CommandError::Number => f.write_str("a number is out of its range"),
        }
    }
}

// ---- positions in a list

/// An item that may occur once in a list.
trait Once: Copy {
    ghost use Rattle.std.specs.Prelude.{Bool};

    /// Whether the other one repeats it.
    ghost again: { Self → Self → Bool };

    /// Whether the other one repeats it.
    fn is_again(self, other: Self) -> bool
        ensures { result ≡ again self other };
}

impl Once for Part {
    ghost again = { is_same_sublot };

    fn is_again(self, other: Part) -> bool {
        self.lot == other.lot && self.sub == other.sub
    }
}

impl Once for RecipeLine {
    ghost again = { repeats };

    fn is_again(self, other: RecipeLine) -> bool {
        is_repeated_by(self, other)
    }
}

/// How many come before the first that repeats the item.
fn index_of<T: Once>(item: T, others: &[T]) -> Option<usize>
    ensures place { result ≡ index_of (T.again item) others.now }
    ensures within { IfSome result (λ n. n < length others.now) }
{
    for (index, other) in others.iter().enumerate() {
        if item.is_again(*other) {
            return Some(index);
        }
    }
    None
}

/// An item and the first after it that repeats it, by how many come before each.
fn pair_of<T: Once>(items: &[T]) -> Option<(usize, usize)>
    ensures pair { result ≡ pair_of T.again items.now }
    ensures within { IfSome result (λ p. (p.0 < length items.now) × (p.1 < length items.now)) }
{
    for (index, item) in items.iter().enumerate() {
        if let Some(between) = index_of(*item, &items[index + 1..]) {
            return Some((index, index + 1 + between));
        }
    }
    None
}

/// How many lines come before the first that doesn't fit.
fn too_much(base: Amount, size: Amount, lines: &[RecipeLine]) -> Option<usize>
    ensures within { IfSome result (λ n. n < length lines.now) }
    ensures place { result ≡ index_of (λ line. not (fits base size line)) lines.now }
{
    for (index, line) in lines.iter().enumerate() {
        if !scales_within(base, size, *line) {
            return Some(index);
        }
    }
    None
}

// ---- what is wrong

fn parts_error(parts: &[Part]) -> Option<CommandError>
    ensures { result ≡ parts_error parts.now }
{
    let count = parts.len();
    if count < 1 || count > GREATEST_PARTS {
        return Some(CommandError::Parts(count));
    }
    match pair_of(parts) {
        Some((first, second)) => Some(CommandError::SamePart(first + 1, second + 1)),
        None => None,
    }
}

fn orders_error(orders: &[OrderRow]) -> Option<CommandError>
    ensures { result ≡ orders_error orders.now }
{
    let count = orders.len();
    if count > GREATEST_ORDERS {
        return Some(CommandError::Orders(count));
    }
    None
}

/// The first condition on what the lines of a recipe are for that doesn't hold.
fn lines_error(product: Id, lines: &[RecipeLine]) -> Option<CommandError>
    ensures { result ≡ lines_error product lines.now }
{
    if !has_some_phase(lines) {
        return Some(CommandError::NoPhase);
    }
    if !has_output_of(product, lines) {
        return Some(CommandError::NoProduct(product));
    }
    match pair_of(lines) {
        Some((first, second)) => Some(CommandError::SameLine(first + 1, second + 1)),
        None => None,
    }
}

fn amounts_error(header: &Header, lines: &[RecipeLine]) -> Option<CommandError>
    ensures { result ≡ amounts_error header.now lines.now }
{
    match too_much(header.base, header.greatest, lines) {
        Some(index) => Some(CommandError::TooMuch(index + 1)),
        None => None,
    }
}

fn recipe_error(header: &Header, lines: &[RecipeLine]) -> Option<CommandError>
    ensures { result ≡ recipe_error header.now lines.now }
{
    let count = lines.len();
    if count < 1 || count > GREATEST_LINES {
        return Some(CommandError::Lines(count));
    }
    if header.least.get() > header.greatest.get() {
        return Some(CommandError::Sizes);
    }
    match lines_error(header.product, lines) {
        Some(command_error) => Some(command_error),
        None => amounts_error(header, lines),
    }
}

fn list_error(body: &Command) -> Option<CommandError>
    ensures { result ≡ list_error body.now }
{
    match body {
        Command::Merge(c) => parts_error(c.parts.as_slice()),
        Command::AddRecipe(c) => recipe_error(&c.header, c.lines.as_slice()),
        Command::ImportOrders(c) => orders_error(c.orders.as_slice()),
        _ => None,
    }
}

fn first_command_error(body: &Command) -> Option<CommandError>
    ensures { result ≡ command_error_of body.now }
{
    match list_error(body) {
        Some(command_error) => Some(command_error),
        None => {
            if body.is_well_formed_command() {
                None
            } else {
                Some(CommandError::Number)
            }
        }
    }
}

/// The first thing that is wrong with a command whatever the desk's state: with its list, then with a number. It is none exactly where the
/// desk doesn't refuse it as BadForm.
#[tactic(auto, using(crate::proofs::NoErrorIffWellFormed::reported_unless_well_formed))]
pub fn command_error_of(body: &Command) -> Option<CommandError>
    ensures first { result ≡ command_error_of body.now }
    ensures well_formed { (result ≡ None) ↔ (is_well_formed_body body.now ≡ true) }
{
    first_command_error(body)
}
