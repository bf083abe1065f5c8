//! What is written to a terminal while a file is opened, which takes long where the file is large.
ghost use Rattle.std.specs.Prelude.{◌≡◌};
ghost use Rattle.desk_file.specs.Timing.{stage_text, is_large, is_long};

use std::fs;
use std::io::IsTerminal;
use std::time::Instant;

/// How far the opening of a file is.
#[derive(Clone, Copy)]
enum Stage {
    /// Its pages are tested.
    Pages,
    /// It is open, and its tables are read and tested.
    Tables,
}

/// What the terminal shows of a stage.
fn stage_text(stage: Stage) -> &'static str
    ensures { result.now ≡ stage_text stage }
{
    match stage {
        Stage::Pages => "opening the file: its pages are tested",
        Stage::Tables => "opened the file: its tables are read and tested",
    }
}

/// Whether the opening of a file of so many bytes takes long whatever it contains, so that a note is written before it is begun.
fn is_large(size: u64) -> bool
    ensures { result ≡ is_large size }
{
    size >= 0x1000_0000
}

/// Whether so many seconds are long.
fn is_long(seconds: u64) -> bool
    ensures { result ≡ is_long seconds }
{
    seconds >= 1
}

/// The opening of a file, whose progress a terminal shows: each stage that is begun where it is known to take long, or has taken
/// long so far. Where standard error is no terminal nothing is written.
#[derive(Clone, Copy)]
pub(crate) struct OpeningProgress<'a> {
    rt: &'a HostRuntime,
    began: Option<Instant>,
}

impl<'a> OpeningProgress<'a> {
    /// An opening that begins now.
    pub(crate) fn begin(rt: &'a HostRuntime, file: &str) -> OpeningProgress<'a> {
        let progress = OpeningProgress {
            rt,
            began: Instant::now(rt).ok(),
        };
        if is_large(size_of(rt, file)) {
            progress.write_report(Stage::Pages);
        }
        progress
    }

    /// Notes that the file is open, where that took long; and that it was made, where that may come of a slip in its name.
    pub(crate) fn note_opened(self, file: &str, is_slip: bool) {
        let rt = self.rt;
        if is_slip && rt.stderr().is_terminal() {
            let _ = eprintln!(rt; "new desk: {file}");
        }
        if is_long(seconds_since(rt, self.began)) {
            self.write_report(Stage::Tables);
        }
    }

    /// Notes a stage, where standard error is a terminal. What can't be written is lost.
    fn write_report(self, stage: Stage) {
        let rt = self.rt;
        if rt.stderr().is_terminal() {
            let text = stage_text(stage);
            let _ = eprintln!(rt; "{text}");
        }
    }
}

/// How many bytes a file has, 0 where the system gives none.
fn size_of(rt: &HostRuntime, file: &str) -> u64 {
    match fs::metadata(rt, file) {
        Ok(metadata) => metadata.len(),
        Err(_) => 0,
    }
}

/// The seconds since an instant, 0 where the clock gives none.
fn seconds_since(rt: &HostRuntime, instant: Option<Instant>) -> u64 {
    match instant {
        Some(began) => match began.elapsed(rt) {
            Ok(passed) => passed.as_secs(),
            Err(_) => 0,
        },
        None => 0,
    }
}
