//! The command that takes the orders of a file.
ghost use Rattle.std.specs.Prelude.{◌≡◌};
ghost use Rattle.plant_orders.specs.Importing.{import};

use plant_base::{Command, Envelope, Id, ImportOrders, Items, OrderRow, Stamp};

/// What an envelope has other than its command.
#[derive(Clone, Copy, Debug, PartialEq, Eq)]
pub struct ImportMetadata {
    /// When and by whom the command is given, and what is noted with it.
    pub stamp: Stamp,
    /// The reference under which it acts once, where it has one.
    pub reference: Option<Id>,
}

/// One command that takes all orders of a file, or none (the job orders of IEC 62264-4): given when, by whom, with the
/// note and under the reference of the import metadata.
pub fn import(import_metadata: ImportMetadata, orders: Items<OrderRow>) -> Envelope
    ensures { result ≡ import import_metadata orders }
{
    Envelope {
        at: import_metadata.stamp.at,
        by: import_metadata.stamp.by,
        note: import_metadata.stamp.note,
        reference: import_metadata.reference,
        body: Command::ImportOrders(ImportOrders { orders }),
    }
}
