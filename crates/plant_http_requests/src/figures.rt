//! What a server has done since it began, as `/v1/health` answers it.
ghost use Rattle.std.specs.Prelude.{◌≡◌, ◌+◌, map, min};
ghost use Rattle.plant_http_requests.specs.AnswerCounts.{with_one_more};

use httpdate::HttpDate;

/// How many answers had a status.
#[derive(Clone, Copy, Debug, PartialEq, Eq)]
pub struct StatusCount {
    /// The number of the status (RFC 9110, section 15).
    pub status: u16,
    /// How many answers had it.
    pub count: u64,
}

/// What a server has done since it began, and what its desk has accepted.
#[derive(Clone, Copy, Debug, PartialEq, Eq)]
pub struct Figures {
    /// When it began, in nanoseconds since 1970-01-01T00:00:00Z; 0 where the clock gave no time. It tells one run of a server from another.
    pub began: u64,
    /// The whole seconds since then.
    pub seconds: u64,
    /// How many connections were dropped without an answer.
    pub unanswered: u64,
    /// Of how many commands `digest` is.
    pub digested: u64,
    /// A digest of the commands that the desk has accepted under references, by which two desks are compared.
    pub digest: u64,
    /// How many requests were answered, by the status of the answer: each status that there is, ascending.
    pub answers: [StatusCount; 13],
}

/// What is known as a request begins to be read.
#[derive(Clone, Copy, Debug, PartialEq, Eq)]
pub struct Now {
    /// The machine's time, in whole seconds; `None` where its clock gave none.
    pub time: Option<HttpDate>,
    /// What the server had done before.
    pub figures: Figures,
}

/// No answer of this status.
fn none_of(status: u16) -> StatusCount {
    StatusCount { status, count: 0 }
}

/// No answer of any status.
fn no_answers() -> [StatusCount; 13] {
    [
        none_of(200),
        none_of(304),
        none_of(400),
        none_of(403),
        none_of(404),
        none_of(405),
        none_of(409),
        none_of(411),
        none_of(412),
        none_of(413),
        none_of(431),
        none_of(501),
        none_of(503),
    ]
}

/// One more where it is of this status; as it was where it is of another.
fn with_one_more(status: u16, counted: StatusCount) -> StatusCount
    ensures { result ≡ with_one_more status counted }
{
    if counted.status == status {
        StatusCount {
            count: counted.count.saturating_add(1),
            ..counted
        }
    } else {
        counted
    }
}

impl Now {
    /// No time, and nothing done: what stands where no request is read yet.
    pub fn unknown() -> Now {
        Now {
            time: None,
            figures: Figures::new(0),
        }
    }
}

impl Figures {
    /// Those of a server that begins at this moment, in nanoseconds since 1970-01-01T00:00:00Z.
    pub fn new(began: u64) -> Figures {
        Figures {
            began,
            seconds: 0,
            unanswered: 0,
            digested: 0,
            digest: 0,
            answers: no_answers(),
        }
    }

    /// Counts an answer of this status, and no other.
    pub fn count_answer(&mut self, status: u16)
        ensures counted { self.new.answers ≡ map (with_one_more status) self.old.answers }
        ensures began { self.new.began ≡ self.old.began }
        ensures unanswered { self.new.unanswered ≡ self.old.unanswered }
    {
        for counted in &mut self.answers {
            *counted = with_one_more(status, *counted);
        }
    }

    /// Counts a connection that was dropped without an answer.
    pub fn count_unanswered(&mut self)
        ensures counted { self.new.unanswered ≡ min (self.old.unanswered + 1) 18446744073709551615 }
        ensures answers { self.new.answers ≡ self.old.answers }
        ensures began { self.new.began ≡ self.old.began }
    {
        self.unanswered = self.unanswered.saturating_add(1);
    }
}
