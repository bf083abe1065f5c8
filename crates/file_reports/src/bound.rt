//! What somebody else gave a table of the desk, so that the table isn't declared as its definition says.
ghost use Rattle.std.specs.Prelude.{◌≡◌};
ghost use Rattle.file_reports.specs.Bound as spec;

use crate::file_report::FileReport;
use plant_base::Text;
use plant_check::{Table, all_tables};
use sqlite_schema::names::same_name;
use sqlite_schema::schema::{Schema, View};

/// A trigger on a table of the desk, or an index on it that the desk can't keep.
#[derive(Clone, Copy, Debug, PartialEq, Eq)]
pub struct Binder {
    /// Its name.
    pub name: Text,
    /// The table.
    pub table: Table,
}

/// Whether the object is a trigger or such an index, and of this table.
fn is_on(object: &View, table: Table) -> bool
    ensures { result ≡ spec.is_on object.now table }
{
    match &object.foreign {
        Some(name) => object.binds && same_name(name.as_slice(), table.name().as_bytes()),
        None => false,
    }
}

/// The first of these tables that the object is on.
fn table_of(object: &View, tables: &[Table]) -> Option<Table>
    ensures { result ≡ spec.table_of object.now tables.now }
{
    for table in tables {
        if is_on(object, *table) {
            return Some(*table);
        }
    }
    None
}

/// The object, where it is on a table of the desk and its name is a text.
fn binder_of(object: &View) -> Option<Binder>
    ensures { result ≡ spec.binder_of object.now }
{
    let table = table_of(object, &all_tables())?;
    let name = Text::read(object.name.as_slice())?;
    Some(Binder { name, table })
}

/// The first of these objects that is on a table of the desk.
fn first_binder(objects: &[View]) -> Option<Binder>
    ensures { result ≡ spec.first_binder objects.now }
{
    for object in objects {
        if let Some(binder) = binder_of(object) {
            return Some(binder);
        }
    }
    None
}

/// The report on a store with this schema: where its tables aren't as declared, also the first trigger or index that is why.
pub fn with_binder(file_report: FileReport, schema: &Schema) -> FileReport
    ensures { result ≡ spec.with_binder schema.now file_report }
{
    match file_report {
        FileReport::Lacking(_) => FileReport::Lacking(first_binder(schema.views.as_slice())),
        other => other,
    }
}
