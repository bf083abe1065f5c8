//! Material classes and definitions.

ghost use Rattle.std.specs.Prelude.{◌≡◌, IfOk};
ghost use Rattle.plant_requirements.specs.Catalogue.{class_fault, class_fault_in};

use crate::fault::{Column, RowFault};
use crate::first::{first_of, names_none};
use crate::keys::id_key;
use crate::plan_keys::{Classes, has_class};
use crate::table_names::Table;
use grouped_rows::Grouped;
use plant_base::{Class, Definition};
use std::alloc::{AllocError, Global};

fn class_fault(classes: &Grouped<Classes>, definition: &Definition) -> Option<RowFault>
    ensures { result ≡ class_fault classes.now.rows.now definition.now }
{
    if has_class(classes, definition.class) {
        return None;
    }
    let place = (Table::Definition, id_key(definition.id));
    Some(names_none(place, Column::Class, definition.class, Table::Class))
}

/// The first definition whose class isn't there. The only error is that memory was refused.
pub fn class_fault_in(
    alloc: Global,
    classes: &[Class],
    definitions: &[Definition],
) -> Result<Option<RowFault>, AllocError>
    ensures { IfOk result (λ reported. reported ≡ class_fault_in classes.now definitions.now) }
{
    let classes = Grouped::<Classes>::new(alloc, classes)?;
    Ok(first_of(definitions, |d| class_fault(&classes, d)))
}
