//! The law of order files, as the contract of a function that does nothing.
ghost use Rattle.plant_orders.specs.Law.{AnImportAgreesWithTheExamination};

/// An import reads a file exactly where [`examine`](crate::examine) finds no fault, and else reports the first fault that this finds.
pub fn examination_law()
    ensures { AnImportAgreesWithTheExamination }
{}
