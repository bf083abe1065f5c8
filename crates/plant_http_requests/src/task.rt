use crate::figures::Figures;
use crate::profile::Presentation;
use crate::routes::BodyFormat;
use crate::status::{Allow, Status};
use desk_page::Resource;
use plant_base::{Envelope, Id, Text};
use plant_orders::{CsvFault, ImportMetadata};
use plant_questions::Question;
use plant_text::ToCheck;

/// What the head of a request decides alone. `silent` where the answer's body is left out, as to a HEAD.
#[derive(Clone, Copy, Debug, PartialEq, Eq)]
pub enum HeadDecision {
    /// The request is answered by this status alone.
    Refuse {
        /// The status of the answer.
        status: Status,
        /// The methods that the path allows, which the answer names with 405.
        allow: Allow,
        /// Whether the answer's body is left out, since the request is a HEAD.
        silent: bool,
    },
    /// A question to the desk, and the format of its answer.
    Ask {
        /// What the desk is asked.
        question: Question,
        /// The format of the answer.
        body_format: BodyFormat,
        /// Whether the answer's body is left out, since the request is a HEAD.
        silent: bool,
    },
    /// The operator whom the head names, who asks for it.
    Operator {
        /// The operator, whose text isn't empty.
        operator: Text,
        /// Whether the answer's body is left out, since the request is a HEAD.
        silent: bool,
    },
    /// How the server fares, and what the desk has accepted last.
    Health {
        /// How the page presents the desk.
        presentation: Presentation,
        /// What the server had done before the request.
        figures: Figures,
        /// Whether the answer's body is left out, since the request is a HEAD.
        silent: bool,
    },
    /// A resource of the page for browsers.
    Resource {
        /// Which.
        resource: Resource,
        /// Whether the client has it as it is, so that it is answered 304 and its bytes are left out.
        is_current: bool,
        /// Whether the answer's body is left out, since the request is a HEAD.
        silent: bool,
    },
}

/// What a request asks for.
#[derive(Drop)]
pub enum RequestTask {
    /// What its head decides, or a refusal of its body.
    Decided(HeadDecision),
    /// A command for the desk to execute, be it the body itself or the import of an order file.
    Command(Envelope),
    /// What is to be checked: the desk says what would become of it, and executes nothing.
    Check(ToCheck),
    /// A command, to be executed or checked, that the request's sender may not give: it is another operator's, or the head doesn't name one operator.
    OtherOperator,
    /// A command, to be executed, without the reference that it has to have.
    NoReference,
    /// A command, to be executed or checked, whose moment is later than the machine's time by more than so many seconds.
    Ahead(u32),
    /// A body that is to be a command and is none.
    BadForm,
    /// An order file with this fault.
    BadFile(CsvFault),
    /// Memory was refused while a body was read as a command or an order file. Nothing is said of the body.
    MemoryError,
}

/// A task, and when it is done.
#[derive(Drop)]
pub struct ConditionalTask {
    /// The number of accepted commands, at most 10^15, at which alone the task is done; `None` where it is done at any.
    pub condition: Option<u64>,
    /// The task.
    pub task: RequestTask,
}

/// What a body is to be.
#[derive(Clone, Copy, Debug, PartialEq, Eq)]
pub(crate) enum BodyKind {
    /// One command, with this reference where it says none itself.
    Command(Option<Id>),
    /// One command, which is to be checked, with this reference where it says none itself.
    Check(Option<Id>),
    /// An order file, to be taken with this moment and operator and under this reference.
    Orders(ImportMetadata),
    /// A body whose fields in the head break their rules: it isn't looked at.
    BadFields,
}

/// What the fields of a head say of its body.
#[derive(Clone, Copy, Debug, PartialEq, Eq)]
pub(crate) struct BodyFields {
    /// What the body is to be.
    pub(crate) content: BodyKind,
    /// The number of accepted commands at which alone it is to be done; `None` where it is done at any.
    pub(crate) condition: Option<u64>,
}

/// Whose commands a request may bring.
#[derive(Clone, Copy, Debug, PartialEq, Eq)]
pub(crate) enum Sender {
    /// Anyone's.
    Anyone,
    /// Those of this operator, whom the head names. It isn't empty.
    Operator(Text),
    /// Nobody's, since the head doesn't name one operator.
    Nobody,
}

/// What a head decides.
#[derive(Clone, Copy, Debug, PartialEq, Eq)]
pub(crate) enum HeadStep {
    /// The head decides alone.
    Decided(HeadDecision),
    /// A body of so many bytes, at most 262,144, is to be read.
    Body {
        size: u32,
        fields: BodyFields,
        sender: Sender,
    },
}
