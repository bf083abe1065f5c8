//! Master recipes and control recipes, and the progress of a batch through its state table.
#![tactic(auto)]

mod control_recipe;
mod master;
mod progress;
mod scaling;
mod table;
mod well_formed;

pub use control_recipe::{RecipeFault, control, control_law, is_size_of};
pub use master::Master;
pub use progress::{GREATEST_ATTEMPT, GREATEST_PHASES, Progress, progress_laws};
pub use scaling::{scaled, scaling_laws};
pub use table::{next_state, table_law};
pub use well_formed::{
    GREATEST_LINES, has_output_of, has_some_phase, is_input_of, is_output_of, is_phase,
    is_repeated_by, is_well_formed, scales_within, well_formed_laws,
};
