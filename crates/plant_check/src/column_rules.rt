//! Rules of numbers.

use plant_base::{
    GREATEST_AMOUNT, GREATEST_MOMENT, GREATEST_PHASE, GREATEST_PRIORITY, GREATEST_SEQ,
    GREATEST_SUBLOT, GREATEST_VERSION,
};
use plant_recipe::GREATEST_ATTEMPT;
use plant_requirements::ValueRule;

pub(crate) const VERSION: ValueRule = ValueRule::Number(1, GREATEST_VERSION as u64);

pub(crate) const AMOUNT: ValueRule = ValueRule::Number(1, GREATEST_AMOUNT);

pub(crate) const QUANTITY: ValueRule = ValueRule::Number(0, GREATEST_AMOUNT);

pub(crate) const PRIORITY: ValueRule = ValueRule::Number(1, GREATEST_PRIORITY as u64);

pub(crate) const MOMENT: ValueRule = ValueRule::Number(0, GREATEST_MOMENT);

pub(crate) const MOMENT_OR_NULL: ValueRule = ValueRule::NumberOrNull(0, GREATEST_MOMENT);

pub(crate) const SEQ: ValueRule = ValueRule::Number(0, GREATEST_SEQ);

pub(crate) const SUBLOT: ValueRule = ValueRule::Number(0, GREATEST_SUBLOT as u64);

pub(crate) const SUBLOT_OR_NULL: ValueRule = ValueRule::NumberOrNull(0, GREATEST_SUBLOT as u64);

pub(crate) const ATTEMPT: ValueRule = ValueRule::Number(1, GREATEST_ATTEMPT as u64);

pub(crate) const NEXT: ValueRule = ValueRule::Number(1, GREATEST_PHASE as u64);

pub(crate) const PHASE: ValueRule = ValueRule::Number(0, GREATEST_PHASE as u64);
