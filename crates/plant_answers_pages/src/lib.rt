//! What is answered of recipes, of batches and commands in lists, and of ids that begin with one, over any view of the
//! desk's state.
#![tactic(auto)]

mod command_words;
mod commands;
mod finding;
mod history;
mod open_batches;
mod recipe_answers;
mod recipes_in_turn;
mod rows_with_ids;

pub use commands::command_page;
pub use finding::find_answer;
pub use history::history_page;
pub use open_batches::batch_page;
pub use recipe_answers::{definition_answer, found_recipe, material_of, recipe_answer, unit_among};
