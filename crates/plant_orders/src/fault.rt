ghost use Rattle.std.specs.Prelude.{◌≡◌, Some};
ghost use Rattle.plant_orders.specs.Orders.{kind_name};
ghost use Rattle.plant_orders.specs.FaultsOfFiles.{csv_text};

use std::error::Error;
use std::fmt;

/// What is wrong with an order file or one of its rows.
#[derive(Clone, Copy, Debug, PartialEq, Eq)]
pub enum CsvKind {
    /// The file is longer than 262,144 bytes.
    TooLong,
    /// The first record isn't the header, or there is none.
    Header,
    /// The row hasn't six fields.
    Shape,
    /// The order is no id.
    Order,
    /// The recipe is no id.
    Recipe,
    /// The version isn't 1 to 999 in 1 to 16 digits.
    Version,
    /// The size is no amount in 1 to 16 digits.
    Size,
    /// The due date isn't one.
    Due,
    /// The priority isn't 1 to 9 in 1 to 16 digits.
    Priority,
    /// There are more than 1,000 rows.
    TooManyRows,
    /// Memory was refused. It is no row's: the row is 0.
    Memory,
}

impl CsvKind {
    /// Its word in replies.
    pub fn name(self) -> &'static str
        ensures { result.now ≡ kind_name self }
    {
        match self {
            CsvKind::TooLong => "TooLong",
            CsvKind::Header => "Header",
            CsvKind::Shape => "Shape",
            CsvKind::Order => "Order",
            CsvKind::Recipe => "Recipe",
            CsvKind::Version => "Version",
            CsvKind::Size => "Size",
            CsvKind::Due => "Due",
            CsvKind::Priority => "Priority",
            CsvKind::TooManyRows => "TooManyRows",
            CsvKind::Memory => "Memory",
        }
    }
}

/// The first fault of an order file. As a text it is `csv row R KIND`.
#[derive(Clone, Copy, Debug, PartialEq, Eq)]
pub struct CsvFault {
    /// The row among the records after the header, from 1 on; 0 for the header and the file as a whole.
    pub row: u16,
    /// What is wrong there.
    pub kind: CsvKind,
}

impl fmt::Display for CsvFault {
    ghost output = { λ fault. Some (csv_text fault) };

    fn fmt<W: fmt::Write>(&self, f: &mut fmt::Formatter<W>) -> fmt::Result {
        let row = self.row;
        let kind = self.kind.name();
        write!(f, "csv row {row} {kind}")
    }
}

impl Error for CsvFault {}

/// Memory was refused.
pub(crate) const MEMORY: CsvFault = CsvFault {
    row: 0,
    kind: CsvKind::Memory,
};

/// The first record isn't the header.
pub(crate) const HEADER: CsvFault = CsvFault {
    row: 0,
    kind: CsvKind::Header,
};
