//! Runs over a keeper that fails, and runs of so many reads.
use plant_base::Envelope;
use plant_desk::{Answer, Checked, DeskFault, Keeper, ListKeeper, Question, Reply};
use plant_text::{RunEnd, run_lines, run_lines_within};
use std::process::Abort;
use std::test::Fail;

/// How a question fails.
#[derive(Clone, Copy, Debug, PartialEq, Eq)]
enum AskFault {
    Store,
    Memory,
}

/// A keeper over lists that executes so many commands, and whose store fails at the next one. The first question may
/// fail too.
#[derive(Drop)]
struct FailingKeeper {
    desk: ListKeeper,
    commands: u64,
    first_question: Option<AskFault>,
    is_shut: bool,
}

impl Keeper for FailingKeeper {
    ghost use Rattle.std.specs.Prelude.{◌≡◌, true};
    ghost use Rattle.std.proofs.Common.{◌∙◌, sym};
    ghost use Rattle.plant_base.specs.PlantState.{newest_schema};

    ghost has_store = { true };

    ghost honest = { λ _. Unit {0} };

    ghost represents = { λ k s. k.desk ≡ s };

    ghost schema = { λ _. newest_schema };

    ghost shut = { λ k. k.is_shut };

    ghost crash_states = { λ k P. P k.desk };

    ghost adds_no_crash_state = { λ old new. old.desk ≡ new.desk };

    ghost ForeignTables = { Unit {0} };

    ghost foreign_tables = { λ _ _. Unit {0} };

    fn execute(&mut self, envelope: &Envelope) -> Result<Reply, DeskFault> {
        if self.is_shut {
            return Err(DeskFault::Shut);
        }
        if self.commands == 0 {
            self.is_shut = true;
            return Err(DeskFault::Store);
        }
        self.commands -= 1;
        Keeper::execute(&mut self.desk, envelope)
    }

    fn check(&mut self, envelope: &Envelope) -> Result<Checked, DeskFault> {
        if self.is_shut {
            return Err(DeskFault::Shut);
        }
        self.desk.check(envelope)
    }

    fn ask(&mut self, question: &Question) -> Result<Answer, DeskFault> {
        if self.is_shut {
            return Err(DeskFault::Shut);
        }
        match self.first_question.take() {
            Some(AskFault::Store) => Err(DeskFault::Store),
            Some(AskFault::Memory) => Err(DeskFault::Memory),
            None => self.desk.ask(question),
        }
    }

    ghost open_crash_state = { λ k s h is_open represented. represented };

    ghost crash_states_nonempty = { λ k left. left };

    ghost keeps_crash_state = { λ a b s h same left. sym same ∙ left };
}

const CLASS: &[u8] =
    b"{\"at\":100,\"by\":\"anna\",\"do\":\"add_class\",\"class\":\"RAW\",\"name\":\"Raw goods\"}\n{\"ask\":\"desk\"}\n";

#[test]
fn a_store_may_fail(rt: HostRuntime) -> Result<(), Fail> {
    let mut input = Vec::new(rt.alloc());
    for _ in 0..3 {
        input.extend_from_slice(CLASS)?;
    }
    let mut keeper = FailingKeeper {
        desk: ListKeeper::new(rt.alloc()),
        commands: 2,
        first_question: None,
        is_shut: false,
    };
    let mut rest = input.as_slice();
    let mut out = Vec::new(rt.alloc());
    let end = run_lines(rt.alloc(), &mut rest, &mut out, &mut keeper);
    assert!(rt; end == RunEnd::Fault(DeskFault::Store));
    assert_eq!(rt;
        out.as_slice(),
        b"{\"ok\":1}\n{\"schema\":4,\"seq\":1}\n{\"name\":\"Exists\",\"refused\":3}\n{\"schema\":4,\"seq\":1}\n{\"fault\":1}\n".as_slice()
    );
    assert!(rt; matches!(keeper.ask(&Question::Desk), Err(DeskFault::Shut)));
    Ok(())
}

/// How a run over a question and a command ends whose question fails so, and what is written.
fn ends_at_a_question(rt: &impl AllocGlobal, fault: AskFault) -> (RunEnd, Vec<u8>) {
    let mut keeper = FailingKeeper {
        desk: ListKeeper::new(rt.alloc()),
        commands: 1,
        first_question: Some(fault),
        is_shut: false,
    };
    let mut rest: &[u8] = b"{\"ask\":\"desk\"}\n{\"ask\":\"desk\"}\n";
    let mut out = Vec::new(rt.alloc());
    let end = run_lines(rt.alloc(), &mut rest, &mut out, &mut keeper);
    (end, out)
}

#[test]
fn a_question_may_fail(rt: HostRuntime) {
    let (end, out) = ends_at_a_question(&rt, AskFault::Store);
    assert!(rt; end == RunEnd::Fault(DeskFault::Store));
    assert_eq!(rt; out.as_slice(), b"{\"fault\":1}\n".as_slice());
    let (end, out) = ends_at_a_question(&rt, AskFault::Memory);
    assert!(rt; end == RunEnd::Fault(DeskFault::Memory));
    assert_eq!(rt; out.as_slice(), b"{\"fault\":2}\n".as_slice());
}

/// Checks how a run of so many reads ends, each of which takes what is there.
fn ends_after(rt: &(impl Abort + AllocGlobal), most: u64, wanted: RunEnd, text: &[u8]) {
    let mut keeper = ListKeeper::new(rt.alloc());
    let mut rest: &[u8] = b"{\"ask\":\"desk\"}\n{\"ask\":\"desk\"}";
    let mut out = Vec::new(rt.alloc());
    let end = run_lines_within(rt.alloc(), &mut rest, &mut out, &mut keeper, most);
    assert!(rt; end == wanted);
    assert!(rt; out.as_slice() == text);
}

/// The second read finds the end of the input. Before it the part after the last LF isn't answered.
#[test]
fn reads_may_run_out(rt: HostRuntime) {
    let first = b"{\"schema\":4,\"seq\":0}\n";
    let both = b"{\"schema\":4,\"seq\":0}\n{\"schema\":4,\"seq\":0}\n";
    ends_after(&rt, 0, RunEnd::Endless, b"");
    ends_after(&rt, 1, RunEnd::Endless, first);
    ends_after(&rt, 2, RunEnd::Done { refused: false }, both);
}
