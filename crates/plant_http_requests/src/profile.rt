use crate::figures::Now;
use plant_base::Text;

/// Which requests are served, and whether the page is.
#[derive(Clone, Copy, Debug)]
pub enum Profile<'a> {
    /// The routes under `/v1/` alone, to every client, whatever Host and Origin say.
    Open,
    /// The web page at `/` in addition to the routes, and only to requests that name this machine, or one of these further
    /// names, as their Host, and come of no other site.
    Page {
        /// The further names, each without a port.
        hosts: &'a [Text],
    },
}

/// How the page presents the desk.
#[derive(Clone, Copy, Debug, PartialEq, Eq)]
pub struct Presentation {
    /// The name of the desk, `None` where it has none.
    pub name: Option<Text>,
    /// The language of the page, by its tag (RFC 5646); `None` where it is the browser's.
    pub language: Option<Text>,
}

/// By what a request is judged.
#[derive(Clone, Copy, Debug)]
pub struct Terms<'a> {
    /// Which requests are served, and whether the page is.
    pub profile: Profile<'a>,
    /// By how many seconds the moment of a command may be later than the machine's time; `None` where it may be by any.
    pub most_ahead: Option<u32>,
    /// The name of the field of a head that says whose commands the request may bring; `None` where it may bring anyone's.
    pub operator_field: Option<&'a [u8]>,
    /// Whether a command that is to be executed has to have a reference.
    pub needs_references: bool,
    /// The name of the desk that the page shows, where it has one.
    pub name: &'a Option<Text>,
    /// The language of the page, by its tag (RFC 5646), where it isn't the browser's.
    pub language: &'a Option<Text>,
    /// What was known when the request began to be read.
    pub now: Now,
}
