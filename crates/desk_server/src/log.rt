//! Requests noted on standard error, a line each.
ghost use Rattle.std.specs.Prelude.{◌≡◌, Some};
ghost use Rattle.desk_server.specs.Noting.{is_printable, logged_status, noted_text};

use std::rt::Clock;
use std::time::{Instant, SystemTime, UNIX_EPOCH};
use std::{fmt, str};

/// How many bytes of a request its line has at most.
const MOST_HEARD: usize = 120;

/// Where requests are noted.
#[derive(Clone, Copy)]
pub enum AccessLog<'a> {
    /// Nowhere.
    Nowhere,
    /// On standard error.
    StandardError(&'a HostRuntime),
}

/// When a connection was taken: seconds since 1970-01-01T00:00:00Z, and by the clock that isn't set.
#[derive(Clone, Copy)]
pub(crate) struct Arrival {
    moment: u64,
    instant: Option<Instant>,
}

/// A request, as it is noted.
#[derive(Clone, Copy)]
struct AccessLogEntry<'a> {
    moment: u64,
    line: &'a str,
    status: Option<u16>,
    microseconds: u128,
}

impl fmt::Display for AccessLogEntry<'_> {
    ghost output = { λ noted. Some (noted_text noted.moment noted.line.now noted.status noted.microseconds) };

    fn fmt<W: fmt::Write>(&self, f: &mut fmt::Formatter<W>) -> fmt::Result {
        let moment = self.moment;
        let line = self.line;
        let status = logged_status(self.status);
        let microseconds = self.microseconds;
        write!(f, "{moment} \"{line}\" {status} {microseconds}")
    }
}

/// The status as it is noted, 0 where nothing was answered.
fn logged_status(status: Option<u16>) -> u16
    ensures { result ≡ logged_status status }
{
    match status {
        Some(status) => status,
        None => 0,
    }
}

impl AccessLog<'_> {
    /// Notes that a port of 127.0.0.1 is listened on.
    pub fn note_serving(self, port: u16) {
        if let AccessLog::StandardError(rt) = self {
            let _ = eprintln!(rt; "serving 127.0.0.1:{port}");
        }
    }

    /// When a connection was taken, where requests are noted.
    pub(crate) fn arrival(self) -> Arrival {
        match self {
            AccessLog::Nowhere => Arrival {
                moment: 0,
                instant: None,
            },
            AccessLog::StandardError(rt) => Arrival {
                moment: seconds_now(rt),
                instant: Instant::now(rt).ok(),
            },
        }
    }

    /// Notes the request of a connection: when it was taken, the first line of what was read, the status of the answer and how many
    /// microseconds it took. What can't be written is lost.
    pub(crate) fn note_request(self, arrival: Arrival, heard: &[u8], status: Option<u16>) {
        if let AccessLog::StandardError(rt) = self {
            let noted = AccessLogEntry {
                moment: arrival.moment,
                line: request_line(heard),
                status,
                microseconds: microseconds_since(rt, arrival.instant),
            };
            let _ = eprintln!(rt; "{noted}");
        }
    }
}

/// The seconds since 1970-01-01T00:00:00Z, 0 where the clock gives none.
fn seconds_now(rt: &HostRuntime) -> u64 {
    match SystemTime::now(rt) {
        Ok(now) => match now.duration_since(UNIX_EPOCH) {
            Ok(passed) => passed.as_secs(),
            Err(_) => 0,
        },
        Err(_) => 0,
    }
}

/// The nanoseconds since 1970-01-01T00:00:00Z, 0 where the clock gives none, or one before that or after 2554.
pub(crate) fn nanoseconds_now<R: Clock>(clock: &R) -> u64 {
    let Ok(now) = SystemTime::now(clock) else {
        return 0;
    };
    match now.duration_since(UNIX_EPOCH) {
        Ok(passed) => u64::try_from(passed.as_nanos()).unwrap_or(0),
        Err(_) => 0,
    }
}

/// The microseconds since an instant, 0 where the clock gave none.
fn microseconds_since(rt: &HostRuntime, instant: Option<Instant>) -> u128 {
    match instant {
        Some(began) => match began.elapsed(rt) {
            Ok(passed) => passed.as_micros(),
            Err(_) => 0,
        },
        None => 0,
    }
}

/// The milliseconds since an instant, 0 where the clock gave none.
pub(crate) fn milliseconds_since<R: Clock>(clock: &R, instant: Option<Instant>) -> u64 {
    match instant {
        Some(began) => match began.elapsed(clock) {
            Ok(passed) => match u64::try_from(passed.as_millis()) {
                Ok(milliseconds) => milliseconds,
                Err(_) => u64::MAX,
            },
            Err(_) => 0,
        },
        None => 0,
    }
}

/// Whether a byte is noted as it is: a visible character of ASCII or a space, and no quotation mark.
fn is_printable(b: u8) -> bool
    ensures { result ≡ is_printable b }
{
    (b' '..=b'~').contains(&b) && b != b'"'
}

/// The prefix of the bytes up to the first that isn't noted.
fn printable_prefix(heard: &[u8]) -> &[u8] {
    for (index, b) in heard.iter().enumerate() {
        if !is_printable(*b) {
            return &heard[..index];
        }
    }
    heard
}

/// The first line of a request, as far as it is noted.
fn request_line(heard: &[u8]) -> &str {
    let front = &heard[..heard.len().min(MOST_HEARD)];
    match str::from_utf8(printable_prefix(front)) {
        Ok(line) => line,
        Err(_) => "",
    }
}
