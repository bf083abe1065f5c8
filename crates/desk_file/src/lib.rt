//! The file of a desk: opened by its name, worked over, and closed.
#![tactic(auto)]

mod new_file;
mod opening;
mod timing;
mod working;

pub use opening::{ClosableStore, InMemory, OnDisk, StoreOpener, is_in_memory};
pub use working::{Ended, OpenRefused, StoreWork, Worked, work_over};
