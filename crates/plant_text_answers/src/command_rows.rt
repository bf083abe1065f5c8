//! What is shown of a command in a page of commands, and of those that name an id.
ghost use Rattle.std.specs.Prelude.{◌≡◌, IfOk};
ghost use Rattle.serde_json.specs.Data.{string};
ghost use Rattle.serde_json.specs.View.{view};
ghost use Rattle.plant_text_answers.specs.ListAnswers.{command_item, history_data, named_item};

use crate::list_answers::rows_value;
use crate::listed_rows::Shown;
use crate::parts::number_value;
use plant_base::Text;
use plant_questions::{BookedCommand, HistoryPage, NamedCommand};
use serde_json::{Value, json};
use std::alloc::{AllocError, Global};

impl Shown for BookedCommand {
    ghost shows = { command_item };

    fn value(&self, alloc: Global) -> Result<Value, AllocError> {
        match self.head {
            Some(head) => json!(in alloc; {
                "at": (head.at.get()), "by": (head.by.as_str()), "do": (head.word.as_str()), "note": (head.note.as_str()),
                "ref": (self.reference.as_str()), "seq": (self.seq)
            }),
            None => json!(in alloc; {"ref": (self.reference.as_str()), "seq": (self.seq)}),
        }
    }
}

impl Shown for Text {
    ghost shows = { string };

    fn value(&self, alloc: Global) -> Result<Value, AllocError> {
        json!(in alloc; (self.as_str()))
    }
}

impl Shown for NamedCommand {
    ghost shows = { named_item };

    fn value(&self, alloc: Global) -> Result<Value, AllocError> {
        let fields = rows_value(alloc, self.fields.as_slice())?;
        match self.command.head {
            Some(head) => json!(in alloc; {
                "at": (head.at.get()), "by": (head.by.as_str()), "do": (head.word.as_str()), "fields": fields,
                "note": (head.note.as_str()), "ref": (self.command.reference.as_str()), "seq": (self.command.seq)
            }),
            None => json!(in alloc; {
                "fields": fields, "ref": (self.command.reference.as_str()), "seq": (self.command.seq)
            }),
        }
    }
}

/// What is shown of the commands of a page that name an id.
pub(crate) fn history_value(alloc: Global, page: &HistoryPage) -> Result<Value, AllocError>
    ensures { IfOk result (λ v. view v ≡ history_data page.now) }
{
    let rows = rows_value(alloc, page.commands.as_slice())?;
    let last = number_value(alloc, page.last)?;
    json!(in alloc; {"commands": rows, "last": last, "more": (page.has_more)})
}
