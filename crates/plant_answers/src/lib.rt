//! What a question is answered, over any view of the desk's state.
#![tactic(auto)]

mod answering;
mod batch_answers;
mod batch_lines;
mod laws;
mod list_answers;
mod needs;
mod stock;
mod stocks;

pub use answering::answer;
pub use laws::{
    balance_law, edges_law, marks_law, recall_answer_law, stands_law, stock_law, tables_law,
    trace_law,
};
