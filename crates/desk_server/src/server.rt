//! What stays the same while connections are served.
use crate::log::{AccessLog, milliseconds_since};
use httpdate::HttpDate;
use plant_http_requests::{Figures, Now, Routes, Terms};
use std::alloc::Global;
use std::rt::Clock;
use std::time::{Instant, SystemTime};

/// A server of connections: what it serves them by, from the first to the last.
#[derive(Drop)]
pub(crate) struct Server<'a, R> {
    pub(crate) alloc: Global,
    pub(crate) clock: &'a R,
    /// When serving began, where the clock gave it.
    pub(crate) began: Option<Instant>,
    pub(crate) routes: Routes,
    /// By what requests are judged; what is known is put in as each is read.
    pub(crate) terms: Terms<'a>,
    pub(crate) log: AccessLog<'a>,
}

impl<R: Clock> Server<'_, R> {
    /// The machine's time in whole seconds; `None` where the clock gives none, or one before 1970 or after 9999.
    fn time(&self) -> Option<HttpDate> {
        HttpDate::try_from(SystemTime::now(self.clock).ok()?).ok()
    }

    /// What is known now, where the server has done this so far.
    pub(crate) fn now(&self, done: Figures) -> Now {
        Now {
            time: self.time(),
            figures: Figures {
                seconds: self.milliseconds() / 1000,
                ..done
            },
        }
    }

    /// The milliseconds since serving began.
    pub(crate) fn milliseconds(&self) -> u64 {
        milliseconds_since(self.clock, self.began)
    }
}
