//! What is done over an opened store.
ghost use Rattle.std.specs.Prelude.{◌≡◌, false, Err, IfErr, OnErr, OnOk, option_copied};
ghost use Rattle.sqlite.specs.Effect.{Database};
ghost use Rattle.sqlite.specs.Held.{state};
ghost use Rattle.sqlite.specs.State.{HasCleanDisk};
ghost use Rattle.desk.specs.Served.{outcome_of};
ghost use Rattle.desk.specs.WorkContracts.{DeskServes, IsProfileOf, IsTermsOf, ServingGives, WorkGives};
ghost use Rattle.desk_program.specs.{WasHonest};
ghost use Rattle.desk_server.specs.{EndsServing, IsSameStore, ServesAtMost};
ghost use Rattle.plant_desk_store.specs.{HasForeignTables, KeepsForeignTables};
ghost use Rattle.plant_http_requests.specs.{Terms};

use desk_cli::{Hosts, Serving, Work};
use desk_program::{Performed, ProgramFault, adopt, perform_task, performed_of};
use desk_server::{AccessLog, ServingFault, listen_at, local_at, serve_listener};
use plant_base::Text;
use plant_desk_store::Desk;
use plant_http_requests::{Now, Profile, Terms};
use sqlite::{Alter, Connection};
use std::io;
use std::net::TcpListener;

/// Does the work over the opened store: a task over the standard streams, or the serving of requests.
pub(crate) fn do_work<S: Alter + Drop>(
    rt: &HostRuntime,
    work: Work,
    connection: Connection<S>,
) -> Performed<S>
    requires { (state S.Store connection).in_transaction ≡ false }
    ensures gives { WorkGives work (state S.Store connection) result.outcome
        (state S.Store result.connection) }
    ensures honest { WasHonest (state S.Store connection) (state S.Store result.connection) }
{
    match work {
        Work::Task(task) => perform_task(
            rt.alloc(),
            &task,
            connection,
            &mut rt.reader(),
            &mut io::writer(rt),
        ),
        Work::Serve(serving) => serve_store(rt, serving, connection),
    }
}

/// Adopts the store, and serves requests by its desk.
fn serve_store<S: Alter + Drop>(
    rt: &HostRuntime,
    serving: Serving,
    connection: Connection<S>,
) -> Performed<S>
    requires { (state S.Store connection).in_transaction ≡ false }
    ensures gives { ServingGives serving (state S.Store connection)
        (state S.Store result.connection) result.outcome }
    ensures honest { WasHonest (state S.Store connection) (state S.Store result.connection) }
{
    match adopt(rt.alloc(), connection) {
        Ok(desk) => serve_desk(rt, serving, desk),
        Err(stopped) => performed_of(stopped),
    }
}

/// Serves requests by an open desk, and gives its store back.
fn serve_desk<S: Alter + Drop>(
    rt: &HostRuntime,
    serving: Serving,
    mut desk: Desk<S>,
) -> Performed<S>
    requires { desk.is_shut ≡ false }
    ensures served { DeskServes serving (state S.Store desk.connection)
        (state S.Store result.connection) result.outcome }
    ensures others { HasCleanDisk (state S.Store result.connection) → (before : Database)
        → HasForeignTables (state S.Store desk.connection) desk.is_shut before
        → KeepsForeignTables before (state S.Store result.connection) }
    ensures honest { WasHonest (state S.Store desk.connection) (state S.Store result.connection) }
{
    let served = serve_at(rt, serving, &mut desk);
    Performed {
        outcome: outcome_of(served),
        connection: desk.close(),
    }
}

/// The outcome of the requests that were served, of which none counts as a refusal, or the fault that ended it.
fn outcome_of(served: Result<(), ServingFault>) -> Result<bool, ProgramFault>
    ensures { result ≡ outcome_of served }
{
    match served {
        Ok(()) => Ok(false),
        Err(ServingFault::Store) => Err(ProgramFault::Store),
        Err(ServingFault::Net) => Err(ProgramFault::Net),
        Err(ServingFault::Memory) => Err(ProgramFault::Memory),
    }
}

/// Where requests are noted: on standard error where that is asked for.
fn log_of(rt: &HostRuntime, is_logged: bool) -> AccessLog<'_> {
    if is_logged {
        AccessLog::StandardError(rt)
    } else {
        AccessLog::Nowhere
    }
}

/// Which requests are served: where the page is, those of its own pages and of programs of this machine, under its names and these.
fn profile_of(page: &Option<Hosts>) -> Profile<'_>
    ensures { IsProfileOf page.now result }
{
    match page {
        Some(hosts) => Profile::Page {
            hosts: hosts.as_slice(),
        },
        None => Profile::Open,
    }
}

/// The bytes of the name of a field.
fn field_of(operator_field: &Option<Text>) -> Option<&[u8]>
    ensures { option_copied result ≡ operator_field.now }
{
    match operator_field {
        Some(name) => Some(name.as_bytes()),
        None => None,
    }
}

/// By what requests are judged, but for the time of each.
fn terms_of(serving: &Serving) -> Terms<'_>
    ensures { IsTermsOf serving.now result }
{
    Terms {
        profile: profile_of(&serving.page),
        operator_field: field_of(&serving.operator_field),
        needs_references: serving.needs_references,
        most_ahead: serving.most_ahead,
        name: &serving.name,
        language: &serving.language,
        now: Now::unknown(),
    }
}

/// Notes that the port is listened on: with the address of the web page, and else where requests are noted.
fn note_listening(rt: &HostRuntime, serving: &Serving, log: AccessLog<'_>) {
    let port = serving.port;
    if serving.page.is_some() {
        let _ = eprintln!(rt; "serving http://127.0.0.1:{port}/");
    } else {
        log.note_serving(port);
    }
}

/// Listens on the port of 127.0.0.1, and serves the connections that come in.
fn serve_at<S: Alter + Drop>(
    rt: &HostRuntime,
    serving: Serving,
    desk: &mut Desk<S>,
) -> Result<(), ServingFault>
    requires { desk.old.is_shut ≡ false }
    ensures ends { EndsServing desk.new.is_shut result }
    ensures serves { (terms : Terms) × IsTermsOf serving terms
        × ServesAtMost S.Store terms serving.count desk.old desk.new }
    ensures same { IsSameStore S.Store desk.old desk.new }
    ensures honest { WasHonest (state S.Store desk.old.connection) (state S.Store desk.new.connection) }
{
    let log = log_of(rt, serving.is_logged);
    let listening = listen_at(rt, local_at(serving.port));
    if listening.is_ok() {
        note_listening(rt, &serving, log);
    }
    let terms = terms_of(&serving);
    serve_listening(rt, listening, terms, serving.count, desk, log)
}

/// Serves the connections that come in where a port is listened on. The fault of one that isn't is handed on.
fn serve_listening<S: Alter + Drop>(
    rt: &HostRuntime,
    listening: Result<TcpListener, ServingFault>,
    terms: Terms<'_>,
    count: u32,
    desk: &mut Desk<S>,
    log: AccessLog<'_>,
) -> Result<(), ServingFault>
    requires { desk.old.is_shut ≡ false }
    ensures ends { OnOk listening (EndsServing desk.new.is_shut result) }
    ensures fault { IfErr listening (λ fault. result ≡ Err fault) }
    ensures unchanged { OnErr listening (desk.new ≡ desk.old) }
    ensures same { IsSameStore S.Store desk.old desk.new }
    ensures serves { ServesAtMost S.Store terms.entry count desk.old desk.new }
    ensures honest { WasHonest (state S.Store desk.old.connection) (state S.Store desk.new.connection) }
{
    match listening {
        Ok(listener) => serve_listener(rt, &listener, terms, count, desk, log),
        Err(fault) => Err(fault),
    }
}
