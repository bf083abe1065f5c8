//! Why an order file has a fault, in words.
ghost use Rattle.std.specs.Prelude.{◌≡◌, Some};
ghost use Rattle.order_check.specs.Verdicts.{reason_of, reason_text};

use plant_json_in::{Member, ShapeError};
use plant_orders::CsvKind;
use std::fmt;

/// Why a file has a fault.
#[derive(Clone, Copy, Debug, PartialEq, Eq)]
pub(crate) enum CsvReason {
    /// It is longer than 262,144 bytes.
    TooLong,
    /// Its first line isn't the header: also where semicolons or tabs are between the fields.
    Header,
    /// A row hasn't six fields.
    Shape,
    /// A field of a row breaks its rule, which is that of the member of a line.
    Field(ShapeError),
    /// It has more than 1,000 orders.
    TooManyRows,
    /// Memory was refused, which is no fault of a file.
    Memory,
}

impl fmt::Display for CsvReason {
    ghost output = { λ reason. Some (reason_text reason) };

    fn fmt<W: fmt::Write>(&self, f: &mut fmt::Formatter<W>) -> fmt::Result {
        match self {
            CsvReason::TooLong => f.write_str("the file is longer than 262144 bytes"),
            CsvReason::Header => f.write_str(
                "the first line isn't order,recipe,version,size,due,priority in UTF-8, with commas between and neither semicolons nor tabs",
            ),
            CsvReason::Shape => f.write_str("the row hasn't six fields with commas between"),
            CsvReason::Field(shape_error) => write!(f, "{shape_error}"),
            CsvReason::TooManyRows => f.write_str("the file has more than 1000 orders"),
            CsvReason::Memory => f.write_str("memory was refused"),
        }
    }
}

/// Why a file has a fault of this kind.
pub(crate) fn reason_of(kind: CsvKind) -> CsvReason
    ensures { result ≡ reason_of kind }
{
    match kind {
        CsvKind::TooLong => CsvReason::TooLong,
        CsvKind::Header => CsvReason::Header,
        CsvKind::Shape => CsvReason::Shape,
        CsvKind::Order => CsvReason::Field(ShapeError::Breaks(Member::Order)),
        CsvKind::Recipe => CsvReason::Field(ShapeError::Breaks(Member::Recipe)),
        CsvKind::Version => CsvReason::Field(ShapeError::Breaks(Member::Version)),
        CsvKind::Size => CsvReason::Field(ShapeError::Breaks(Member::Size)),
        CsvKind::Due => CsvReason::Field(ShapeError::Breaks(Member::Due)),
        CsvKind::Priority => CsvReason::Field(ShapeError::Breaks(Member::Priority)),
        CsvKind::TooManyRows => CsvReason::TooManyRows,
        CsvKind::Memory => CsvReason::Memory,
    }
}
