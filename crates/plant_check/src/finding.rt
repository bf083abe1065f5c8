//! The broken rules, each with the first row that breaks it.
ghost use Rattle.std.specs.Prelude.{◌≡◌, IfOk, true, not, filter, find};
ghost use Rattle.plant_tables.specs.{rows_listed};
ghost use Rattle.plant_check_rules.specs.{first_broken, first_broken_of, obeys, tested_rules};
ghost use Rattle.plant_check.specs.Values.{AreUnreadIfBad};
ghost use Rattle.plant_check.specs.Findings as spec;
ghost use Rattle.plant_check.specs.Findings.{AreFindingsOf, IsFirstFound, IsFoundByRow};
ghost use Rattle.plant_check.specs.Findings.{IsFoundWhereBroken, IsTestOf};

use crate::edges::edge_fault;
use crate::events::event_fault;
use crate::lots::lot_fault;
use crate::movements::movement_fault;
use crate::numbers::{are_right_numbers, number_fault};
use crate::recalls::recall_fault;
use crate::recipes::recipe_fault;
use crate::stocks::stock_fault;
use crate::values::value_fault_in;
use plant_check_rules::Rule;
use plant_check_rules::checking::{are_edges_of, are_right_recalls};
use plant_requirements::RowFault;
use plant_requirements::batches::batch_fault_in;
use plant_requirements::catalogue::class_fault_in;
use plant_requirements::orders::order_fault_in;
use plant_requirements::receipts::receipt_fault_in;
use plant_tables::{DeskRows, Loaded, has_meta, rows_of};
use std::alloc::{AllocError, Global};

/// A rule that is broken.
#[derive(Clone, Copy, Debug, PartialEq, Eq)]
pub struct Finding {
    /// The rule.
    pub rule: Rule,
    /// The first row that breaks it, where one is known.
    pub row: Option<RowFault>,
}

/// What a rule says.
pub fn rule_text(rule: Rule) -> &'static str
    ensures { result.now ≡ spec.rule_text rule }
{
    match rule {
        Rule::Tables => "each table stands with its columns, and meta has one row",
        Rule::Values => "each value obeys its rule",
        Rule::Classes => "each definition's class is there",
        Rule::Recipes => "each recipe is well formed, and what it names is there",
        Rule::Orders => {
            "each order has its recipe, its size and the batch that its state asks for"
        }
        Rule::Batches => "each batch has its order and the control recipe that this asks for",
        Rule::Stocks => "each sublot's stock is what entered it less what left it",
        Rule::Lots => {
            "each lot has its definition and its sublots, and each of these came to be once"
        }
        Rule::Movements => "each movement has the columns of its kind, and what it names is there",
        Rule::Events => {
            "each event was allowed, and each batch has come as far as its columns say"
        }
        Rule::Numbers => "numbers are those of commands, and moments don't fall",
        Rule::Descent => {
            "nothing was made from itself, and the edges are those of the movements"
        }
        Rule::Receipts => "each receipt has a number of its own that was given",
        Rule::Recalls => {
            "each recall has its lot, and the marks are those of what the open ones reach"
        }
    }
}

/// The rules that rows are tested by whose values obey theirs, in their order.
fn tested_rules() -> [Rule; 12]
    ensures { result ≡ tested_rules }
{
    [
        Rule::Classes,
        Rule::Recipes,
        Rule::Orders,
        Rule::Batches,
        Rule::Stocks,
        Rule::Lots,
        Rule::Movements,
        Rule::Events,
        Rule::Numbers,
        Rule::Descent,
        Rule::Receipts,
        Rule::Recalls,
    ]
}

/// The first row that breaks the rule, where one is known.
#[tactic(auto, unfolding(plant_tables::specs::RowLists::rows_listed))]
fn row_fault(alloc: Global, rule: Rule, rows: &DeskRows) -> Result<Option<RowFault>, AllocError>
    ensures { IfOk result (λ reported. reported ≡ spec.row_fault rule (rows_listed rows.now)) }
{
    match rule {
        Rule::Tables | Rule::Values => Ok(None),
        Rule::Classes => {
            class_fault_in(alloc, rows.classes.as_slice(), rows.definitions.as_slice())
        }
        Rule::Recipes => recipe_fault(alloc, rows),
        Rule::Orders => order_fault_in(
            alloc,
            rows.recipes.as_slice(),
            rows.batches.as_slice(),
            rows.jobs.as_slice(),
        ),
        Rule::Batches => batch_fault_in(
            alloc,
            rows.recipes.as_slice(),
            rows.master_lines.as_slice(),
            rows.jobs.as_slice(),
            rows.batches.as_slice(),
            rows.control_lines.as_slice(),
        ),
        Rule::Stocks => stock_fault(alloc, rows),
        Rule::Lots => lot_fault(alloc, rows),
        Rule::Movements => movement_fault(alloc, rows),
        Rule::Events => event_fault(alloc, rows),
        Rule::Numbers => number_fault(alloc, rows),
        Rule::Descent => edge_fault(alloc, rows),
        Rule::Receipts => {
            receipt_fault_in(alloc, rows.meta.position.seq, rows.receipts.as_slice())
        }
        Rule::Recalls => recall_fault(alloc, rows),
    }
}

/// Whether no row breaks the rule, one that is broken by a row alone.
fn passes_by_row(alloc: Global, rule: Rule, rows: &DeskRows) -> Result<bool, AllocError>
    requires { spec.is_broken_by_row rule ≡ true }
    ensures { IfOk result (λ b. b ≡ obeys rule (rows_listed rows.now)) }
{
    match row_fault(alloc, rule, rows) {
        Ok(None) => Ok(true),
        Ok(Some(_)) => Ok(false),
        Err(refused) => Err(refused),
    }
}

/// Whether the rows obey the rule. Where a row breaks it in any case, they obey it where none is found; the others are tested apart.
/// The only error is that memory was refused.
#[tactic(auto, unfolding(plant_tables::specs::RowLists::rows_listed))]
fn obeys(alloc: Global, rule: Rule, rows: &DeskRows) -> Result<bool, AllocError>
    ensures { IfOk result (λ b. b ≡ obeys rule (rows_listed rows.now)) }
{
    match rule {
        Rule::Numbers => are_right_numbers(alloc, rows),
        Rule::Descent => are_edges_of(alloc, rows),
        Rule::Recalls => are_right_recalls(alloc, rows),
        _ => passes_by_row(alloc, rule, rows),
    }
}

/// What is found of a rule: nothing where the rows obey it.
fn finding_of(alloc: Global, rule: Rule, rows: &DeskRows) -> Result<Option<Finding>, AllocError>
    ensures { IfOk result (λ found. found ≡ spec.finding_of rule (rows_listed rows.now)) }
{
    if obeys(alloc, rule, rows)? {
        return Ok(None);
    }
    let row = row_fault(alloc, rule, rows)?;
    Ok(Some(Finding { rule, row }))
}

fn first_broken_among(
    alloc: Global,
    rules: &[Rule],
    rows: &DeskRows,
) -> Result<Option<Rule>, AllocError>
    ensures { IfOk result (λ broken. broken ≡ find (λ r. not (obeys r (rows_listed rows.now))) rules.now) }
{
    for rule in rules {
        if !obeys(alloc, *rule, rows)? {
            return Ok(Some(*rule));
        }
    }
    Ok(None)
}

/// The first rule that rows break whose values obey theirs, if they break one. The only error is that memory was refused.
#[tactic(auto, unfolding(plant_check_rules::specs::Rules::first_broken_of))]
pub fn check_rows(alloc: Global, rows: &DeskRows) -> Result<Option<Rule>, AllocError>
    ensures { IfOk result (λ broken. broken ≡ first_broken_of (rows_listed rows.now)) }
{
    first_broken_among(alloc, &tested_rules(), rows)
}

/// The first rule that loaded tables break, if they break one: of tables without one valid row of meta the first, where a value
/// breaks its rule the second, else the first that the rows break. The only error is that memory was refused.
#[tactic(auto, unfolding(plant_check_rules::specs::Rules::first_broken))]
pub fn check(alloc: Global, loaded: &Loaded) -> Result<Option<Rule>, AllocError>
    ensures { IfOk result (λ broken. broken ≡ first_broken loaded.now) }
{
    if !has_meta(loaded) {
        return Ok(Some(Rule::Tables));
    }
    match rows_of(alloc, loaded)? {
        None => Ok(Some(Rule::Values)),
        Some(rows) => check_rows(alloc, &rows),
    }
}

/// Rows whose values obey their rules, with the rules that they break.
#[derive(Drop)]
pub struct Tested {
    rows: DeskRows,
    /// The broken rules, in their order.
    pub rules: Vec<Rule>,
}

impl Tested {
    /// What is found of a rule: nothing where the rows obey it. The only error is that memory was refused.
    pub fn of_rule(&self, alloc: Global, rule: Rule) -> Result<Option<Finding>, AllocError>
        ensures { IfOk result (λ found. found ≡ spec.finding_of rule (rows_listed self.now.rows)) }
    {
        finding_of(alloc, rule, &self.rows)
    }
}

fn broken_among(alloc: Global, rules: &[Rule], rows: &DeskRows) -> Result<Vec<Rule>, AllocError>
    ensures { IfOk result (λ list. list.items ≡ filter (λ r. not (obeys r (rows_listed rows.now))) rules.now) }
{
    let mut list = Vec::new(alloc);
    for rule in rules {
        if !obeys(alloc, *rule, rows)? {
            list.push(*rule)?;
        }
    }
    Ok(list)
}

/// Tests rows whose values obey theirs by each other rule. The only error is that memory was refused.
pub fn test_rows(alloc: Global, rows: DeskRows) -> Result<Tested, AllocError>
    ensures { IfOk result (IsTestOf rows) }
{
    let rules = broken_among(alloc, &tested_rules(), &rows)?;
    Ok(Tested { rows, rules })
}

/// What is found of all rows that were loaded.
#[derive(Drop)]
pub enum Findings {
    /// Meta hasn't one valid row.
    NoMeta,
    /// A value breaks its rule; and the first row of which one does, where it is known.
    Values(Option<RowFault>),
    /// All values obey their rules, and the rows were tested by the others.
    Rows(Tested),
}

/// Tests all rows that were loaded. The only error is that memory was refused.
pub fn test_loaded(alloc: Global, loaded: &Loaded) -> Result<Findings, AllocError>
    ensures { IfOk result (AreFindingsOf loaded.now) }
{
    if !has_meta(loaded) {
        return Ok(Findings::NoMeta);
    }
    match rows_of(alloc, loaded)? {
        None => Ok(Findings::Values(value_fault_in(alloc, loaded)?)),
        Some(rows) => Ok(Findings::Rows(test_rows(alloc, rows)?)),
    }
}

/// What findings say, as laws that a proof above may cite. It does nothing when it runs.
///
/// - `broken`: of rows whose values obey their rules each other rule is found exactly where they don't obey it.
/// - `by_row`: and then with a row, but for numbers, descent and recalls.
/// - `first`: the first rule that is found of loaded rows is the first that they break.
/// - `unread`: no row is read of which a value breaks the rule of its column.
pub fn findings_law()
    ensures broken { IsFoundWhereBroken }
    ensures by_row { IsFoundByRow }
    ensures first { IsFirstFound }
    ensures unread { AreUnreadIfBad }
{}
