//! The texts of answers.
ghost use Rattle.std.specs.Prelude.{◌≡◌, IfOk, string_bytes};
ghost use Rattle.serde_json.specs.View.{view};
ghost use Rattle.plant_text_answers.specs.Answers.{desk_data, moment_data, order_data};
ghost use Rattle.plant_text_answers.specs.Answers.{text_of_answer};

use crate::balances::{balances_value, needs_value};
use crate::batch_answers::batch_value;
use crate::edge_answers::genealogy_value;
use crate::found_answers::found_value;
use crate::list_answers::listed_value;
use crate::lot_answers::{lot_value, stands_value};
use crate::parts::id_value;
use crate::recall_answers::recall_value;
use crate::recipe_answers::{batch_lines_value, definition_value, recipe_value};
use crate::replies::refusal_line;
use crate::trace_answers::trace_value;
use plant_base::Moment;
use plant_questions::{Answer, OrderAnswer};
use serde_json::{Value, json};
use std::alloc::{AllocError, Global};

fn desk_value(alloc: Global, schema: u64, seq: u64) -> Result<Value, AllocError>
    ensures { IfOk result (λ v. view v ≡ desk_data schema seq) }
{
    json!(in alloc; {"schema": schema, "seq": seq})
}

fn moment_value(alloc: Global, at: Moment) -> Result<Value, AllocError>
    ensures { IfOk result (λ v. view v ≡ moment_data at) }
{
    json!(in alloc; {"at": (at.get())})
}

fn order_value(alloc: Global, answer: &OrderAnswer) -> Result<Value, AllocError>
    ensures { IfOk result (λ v. view v ≡ order_data answer.now) }
{
    let order = answer.job.order;
    let batch = id_value(alloc, answer.batch)?;
    json!(in alloc; {
        "batch": batch, "due": (order.due.as_str()), "order": (order.order.as_str()), "priority": (order.priority),
        "recipe": (order.recipe.as_str()), "size": (order.size.get()), "state": (answer.job.state.name()),
        "version": (order.version)
    })
}

/// The text of an answer, without an LF: JSON with no blanks, the members by the bytes of their names.
///
/// - of the desk `{"schema":N,"seq":N}`
/// - of a lot `{"def":ID,"held":BOOL,"lot":ID,"stock":N,"sublots":[{"no":N,"place":TEXT,"stock":N}]}`
/// - of an order `{"batch":ID or null,"due":"YYYY-MM-DD","order":ID,"priority":N,"recipe":ID,"size":N,"state":WORD,"version":N}`
/// - of a batch `{"attempt":N,"batch":ID,"closed":BOOL,"consumed":[{"amount":N,"def":ID,"lot":ID,"seq":N,"sub":N}],
///   "next":N,"order":ID,"phases":N,"produced":[{"amount":N,"def":ID,"lot":ID,"seq":N}],"recipe":ID,"size":N,
///   "state":WORD,"version":N}`
/// - of a trace `{"nodes":[{"lot":ID},{"batch":ID}]}`
/// - of where goods are
///   `{"lots":[{"def":ID,"held":BOOL,"lot":ID,"recalled":BOOL,"stock":N,"sublots":[{"no":N,"place":TEXT,"stock":N}]}]}`
/// - of a balance `{"lots":[{"def":ID,"entered":{"merged":N,"produced":N,"received":N,"split":N},"held":BOOL,
///   "left":{"consumed":N,"merged":N,"scrapped":N,"split":N},"lot":ID,"recalled":BOOL,"stock":N,
///   "sublots":[{"no":N,"place":TEXT,"stock":N}],"unit":UNIT or null}]}`
/// - of the genealogy around a lot or batch `{"edges":[{"amount":N,"from":{"lot":ID},"to":{"batch":ID}}],
///   "nodes":[{"def":ID,"held":BOOL,"lot":ID,"recalled":BOOL,"stock":N,"unit":UNIT},{"batch":ID}]}`
/// - of a recall `{"lot":ID,"nodes":[{"lot":ID},{"batch":ID}],"recall":ID,"state":WORD}`
/// - of the desk's moment `{"at":N}`
/// - of a definition `{"class":ID,"def":ID,"name":TEXT,"unit":UNIT}`
/// - of a recipe `{"base":N,"lines":[LINE],"max":N,"min":N,"product":ID,"recipe":ID,"state":WORD,"title":TEXT,
///   "unit":UNIT or null,"version":N}`, each LINE, by number, `{"def":ID,"kind":"in","qty":N,"unit":UNIT or null}`, the same
///   with `"out"`, `{"kind":"par","name":ID,"value":TEXT}` or `{"kind":"phase","oper":ID,"phase":ID,"unit":ID}`
/// - of the lines of a batch `{"batch":ID,"lines":[LINE]}`, each LINE, by number,
///   `{"asked":N,"booked":N,"def":ID,"kind":"in","unit":UNIT or null}`, the same with `"out"`, or a parameter or a phase as in a recipe
/// - of what an order needs `{"needs":[{"asked":N,"def":ID,"short":N,"unit":UNIT or null,"usable":N}]}`
/// - of a page of orders, by their ids or by their due dates, `{"more":BOOL,"orders":[{"due":"YYYY-MM-DD","order":ID,"priority":N,"recipe":ID,"size":N,"version":N}]}`
/// - of one of open or of closed batches `{"batches":[{"attempt":N,"batch":ID,"next":N,"order":ID,"phase":ID or null,"phases":N,"state":WORD}],"more":BOOL}`
/// - of one of lots `{"last":ID or null,"lots":[{"held":BOOL,"lot":ID,"recalled":BOOL,"stock":N,"sublots":[{"no":N,"place":TEXT,"stock":N}]}],"more":BOOL}`
/// - of one of the holds of a lot `{"holds":[{"at":N,"by":TEXT,"hold":ID,"note":TEXT}],"more":BOOL}`
/// - of one of the holds of all lots `{"holds":[{"at":N,"by":TEXT,"hold":ID,"lot":ID,"note":TEXT}],"more":BOOL}`
/// - of one of open recalls `{"more":BOOL,"recalls":[{"at":N,"by":TEXT,"lot":ID,"note":TEXT,"recall":ID}]}`
/// - of one of lifted recalls `{"more":BOOL,"recalls":[{"at":N,"by":TEXT,"lift":{"at":N,"by":TEXT,"note":TEXT},"lot":ID,"note":TEXT,"recall":ID}]}`
/// - of one of the commands that had references `{"commands":[{"at":N,"by":TEXT,"do":WORD,"note":TEXT,"ref":ID,"seq":N}],"more":BOOL}`;
///   of a command with no known head `{"ref":ID,"seq":N}`
/// - of one of classes `{"classes":[{"class":ID,"name":TEXT}],"more":BOOL}`
/// - of one of definitions `{"definitions":[{"def":ID,"name":TEXT,"unit":UNIT}],"more":BOOL}`
/// - of one of recipes `{"more":BOOL,"recipes":[{"base":N,"max":N,"min":N,"product":ID,"recipe":ID,"title":TEXT,"version":N}]}`
/// - of one of a ledger `{"more":BOOL,"movements":[{"amount":N,"at":N,"batch":ID or null,"by":TEXT,"kind":WORD,"line":N,"lot":ID,"note":TEXT,
///   "seq":N,"sub":N,"to":ID or null,"to_sub":N or null}]}`
/// - of one of the lots of a definition that have stock `{"lots":[{"at":N or null,"by":TEXT or null,"held":BOOL,"lot":ID,"note":TEXT or null,
///   "recalled":BOOL,"seq":N or null,"stock":N,"sublots":[{"no":N,"place":TEXT,"stock":N}]}],"more":BOOL}`
/// - of one of what there is of definitions
///   `{"more":BOOL,"stocks":[{"def":ID,"held":N,"lots":N,"name":TEXT,"recalled":N,"unit":UNIT,"usable":N}]}`
/// - of the ids that begin with another
///   `{"batches":[ID],"classes":[ID],"definitions":[ID],"lots":[ID],"orders":[ID],"recalls":[ID],"recipes":[ID]}`
/// - of an unknown id the refusal's text, as [`crate::reply_line`] gives it
///
/// The only error is that memory was refused.
#[tactic(auto, unfolding(crate::specs::Answers::text_of_answer))]
pub fn answer_text(alloc: Global, answer: &Answer) -> Result<String, AllocError>
    ensures { IfOk result (λ s. string_bytes s ≡ text_of_answer answer.now) }
{
    match answer {
        Answer::Desk { schema, seq } => desk_value(alloc, *schema, *seq)?.to_string(alloc),
        Answer::Lot(lot) => lot_value(alloc, lot)?.to_string(alloc),
        Answer::Order(order) => order_value(alloc, order)?.to_string(alloc),
        Answer::Batch(batch) => batch_value(alloc, batch)?.to_string(alloc),
        Answer::Trace(nodes) => trace_value(alloc, nodes.as_slice())?.to_string(alloc),
        Answer::Stands(lots) => stands_value(alloc, lots.as_slice())?.to_string(alloc),
        Answer::Balance(lots) => balances_value(alloc, lots.as_slice())?.to_string(alloc),
        Answer::Edges(genealogy) => genealogy_value(alloc, genealogy)?.to_string(alloc),
        Answer::Recall(recall) => recall_value(alloc, recall)?.to_string(alloc),
        Answer::Moment { at } => moment_value(alloc, *at)?.to_string(alloc),
        Answer::List(listed) => listed_value(alloc, listed)?.to_string(alloc),
        Answer::Definition(definition) => definition_value(alloc, definition)?.to_string(alloc),
        Answer::Recipe(recipe) => recipe_value(alloc, recipe)?.to_string(alloc),
        Answer::BatchLines(lines) => batch_lines_value(alloc, lines)?.to_string(alloc),
        Answer::Needs(needs) => needs_value(alloc, needs.as_slice())?.to_string(alloc),
        Answer::Found(found) => found_value(alloc, found)?.to_string(alloc),
        Answer::Unknown(refusal) => String::from_str(alloc, refusal_line(*refusal).as_str()),
    }
}
