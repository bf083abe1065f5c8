//! The connections of a transport, side by side.
ghost use Rattle.std.specs.Prelude.{◌≡◌, ◌≢◌, [], ◌∷◌, false, true, ◌<◌, ◌≤◌, length, Ok, Err, IfErr, IfOk};
ghost use Rattle.std.specs.Prelude.{OnErr, OnOk};
ghost use Rattle.sqlite.specs.Held.{state};
ghost use Rattle.sqlite.specs.State.{HasCleanDisk};
ghost use Rattle.desk_server.specs.Exchanges.{GoesOn, GoesOnServed, IsUnserved, KeepsHeld};
ghost use Rattle.desk_server.specs.Exchanges.{ServesOver, StaysHeld, made_by};
ghost use Rattle.desk_server.specs.Serving.{EndsServing, IsSameStore, ServesAtMost};
ghost use Rattle.desk_server.specs.Queue.{FitsStep};

use crate::connection::{Connection, Stage};
use crate::fault::ServingFault;
use crate::log::{AccessLog, nanoseconds_now};
use crate::queue::{Arrivals, MOST_CONNECTIONS, Queue, Step};
use crate::receiving::Received;
use crate::server::Server;
use crate::sockets::Sockets;
use crate::transport::Transport;
use plant_desk_store::{Desk, Digest};
use plant_http_requests::{Figures, Routes, RoutesFault, Terms};
use sqlite::Alter;
use std::alloc::{AllocError, AllocGlobal, Global};
use std::net::{Net, TcpListener};
use std::rt::Clock;
use std::time::Instant;

/// How many connections the system is asked about at most after a step: as many as there are.
const MOST_READY: usize = 66;

/// The connections of a transport.
#[derive(Drop)]
pub(crate) struct Connections {
    /// Those that were taken.
    pub(crate) queue: Queue,
    /// Whether it is the turn of one that comes in.
    have_turn: bool,
    /// What was done with those that are served or dropped.
    done: Figures,
}

/// How long the system is asked at most for what is there, in milliseconds; `None` where only something that comes ends it.
fn most_wait(step: Step) -> Option<u64> {
    match step {
        Step::Advance(_) | Step::Drop(_) | Step::Take => Some(0),
        Step::Wait(most) => most,
    }
}

impl Connections {
    /// None so far, where serving began at this moment, in nanoseconds since 1970-01-01T00:00:00Z. `AllocError`: memory was refused.
    fn new(alloc: Global, began: u64) -> Result<Connections, AllocError>
        ensures { IfOk result (λ made. made.queue.connections.items ≡ []) }
    {
        Ok(Connections {
            queue: Queue::new(alloc)?,
            have_turn: true,
            done: Figures::new(began),
        })
    }

    /// What was done so far, by a desk of this digest.
    fn figures(&self, digest: Digest) -> Figures {
        Figures {
            digested: digest.commands,
            digest: digest.sum,
            ..self.done
        }
    }

    /// What is done next, at so many milliseconds. After one was taken it is the turn of those that are there.
    fn next(&mut self, now: u64, may_take: bool) -> Step
        ensures fits { FitsStep result self.new.queue.connections.items }
        ensures unchanged { self.new.queue ≡ self.old.queue }
    {
        let arrivals = Arrivals {
            may_take,
            have_turn: self.have_turn,
        };
        let step = self.queue.next(now, arrivals);
        self.have_turn = !matches!(step, Step::Take);
        step
    }

    /// What is done next where none is taken any more.
    fn next_of_taken(&self, now: u64) -> Step
        ensures { FitsStep result self.now.queue.connections.items }
    {
        let arrivals = Arrivals {
            may_take: false,
            have_turn: false,
        };
        self.queue.next(now, arrivals)
    }

    /// Asks the system what is there by the time that a step is done. `Net`: it doesn't say. No
    /// other fault comes.
    fn ask<T: Transport>(&mut self, step: Step, transport: &mut T) -> Result<(), ServingFault>
        ensures net { IfErr result (λ fault. fault ≡ ServingFault.Net) }
        ensures shown { T.traffic transport.new ≡ T.traffic transport.old }
        ensures held { StaysHeld self.old.queue.connections.items self.new.queue.connections.items }
    {
        transport.ask(most_wait(step))?;
        for _ in 0..MOST_READY {
            let Some(number) = transport.next_ready() else {
                return Ok(());
            };
            self.queue.mark(number);
        }
        Ok(())
    }

    /// Asks the system what is there by the time that a step is done, by which so many were served or dropped: but for a step that took one, or
    /// by which one was served or dropped, since those that are there wait for none of it. `Net`: it doesn't say. No other fault comes.
    fn ask_after<T: Transport>(
        &mut self,
        step: Step,
        done: u32,
        transport: &mut T,
    ) -> Result<(), ServingFault>
        ensures net { IfErr result (λ fault. fault ≡ ServingFault.Net) }
        ensures shown { T.traffic transport.new ≡ T.traffic transport.old }
        ensures held { StaysHeld self.old.queue.connections.items self.new.queue.connections.items }
    {
        match step {
            Step::Take => Ok(()),
            Step::Advance(_) | Step::Drop(_) if done > 0 => Ok(()),
            Step::Advance(_) | Step::Drop(_) | Step::Wait(_) => self.ask(step, transport),
        }
    }
}

impl<R: Clock> Server<'_, R> {
    /// Takes a connection, where one is there. One that the system doesn't follow is dropped. Where the system refuses one, as with
    /// too many open files, there is room made for it. Returns how many
    /// were dropped, 0 or 1. `Net`: none can be taken, and there is no connection to be dropped for it.
    fn take_next<T: Transport>(
        &self,
        connections: &mut Connections,
        transport: &mut T,
    ) -> Result<u32, ServingFault>
        requires { length connections.old.queue.connections.items ≤ 64 }
        ensures few { IfOk result (λ done. done ≤ 1) }
        ensures net { IfErr result (λ fault. fault ≡ ServingFault.Net) }
        ensures alone { OnErr result (connections.old.queue.connections.items ≡ []) }
        ensures held { KeepsHeld self.now.terms (T.traffic transport.old) connections.old.queue.connections.items
            (T.traffic transport.new) connections.new.queue.connections.items }
    {
        let taken = match transport.take() {
            Ok(taken) => taken,
            Err(_) => return self.make_room(connections, transport),
        };
        let Some(number) = taken else {
            return Ok(0);
        };
        let arrival = self.log.arrival();
        if !transport.follow(number) {
            transport.close(number);
            self.log.note_request(arrival, &[], None);
            connections.done.count_unanswered();
            return Ok(1);
        }
        connections.queue.add(Connection {
            number,
            arrival,
            stage: Stage::Silent,
            moved: self.milliseconds(),
            is_ready: false,
            now: self.now(connections.done),
            request: Vec::new(self.alloc),
            size: None,
            answer: Vec::new(self.alloc),
            handed: 0,
        });
        Ok(0)
    }

    /// Makes room for a connection that the system refuses: the one that has stayed as it is for longest is dropped. Returns how many were
    /// dropped without being served, 0 or 1. `Net`: none is there.
    fn make_room<T: Transport>(
        &self,
        connections: &mut Connections,
        transport: &mut T,
    ) -> Result<u32, ServingFault>
        ensures few { IfOk result (λ done. done ≤ 1) }
        ensures net { IfErr result (λ fault. fault ≡ ServingFault.Net) }
        ensures alone { OnErr result (connections.old.queue.connections.items ≡ []) }
        ensures held { KeepsHeld self.now.terms (T.traffic transport.old) connections.old.queue.connections.items
            (T.traffic transport.new) connections.new.queue.connections.items }
    {
        if connections.queue.connections.is_empty() {
            return Err(ServingFault::Net);
        }
        Ok(self.drop_at(0, connections, transport))
    }

    /// Drops a connection. Returns 1 where its request wasn't served, else 0, since it was counted then.
    fn drop_at<T: Transport>(
        &self,
        index: usize,
        connections: &mut Connections,
        transport: &mut T,
    ) -> u32
        requires { index < length connections.old.queue.connections.items }
        ensures few { result ≤ 1 }
        ensures held { KeepsHeld self.now.terms (T.traffic transport.old) connections.old.queue.connections.items
            (T.traffic transport.new) connections.new.queue.connections.items }
    {
        let connection = connections.queue.remove(index);
        let is_served = connection.is_served();
        self.drop_connection(connection, transport);
        if is_served {
            return 0;
        }
        connections.done.count_unanswered();
        1
    }

    /// Serves what was received on a connection, and begins to hand over the answer. `Store`: a fault of the store has shut the
    /// desk. No other fault comes.
    fn serve_at<T: Transport, S: Alter + Drop>(
        &self,
        mut connection: Connection,
        connections: &mut Connections,
        transport: &mut T,
        desk: &mut Desk<S>,
    ) -> Result<u32, ServingFault>
        requires { length connections.old.queue.connections.items ≤ 64 }
        ensures same { IsSameStore S.Store desk.old desk.new }
        ensures serves { desk.old.is_shut ≡ false
            → ServesAtMost S.Store self.now.terms 1 desk.old desk.new }
        ensures exchanges { desk.old.is_shut ≡ false → GoesOnServed S.Store self.now.terms
            (T.traffic transport.old) connection connections.old.queue.connections.items desk.old
            (T.traffic transport.new) connections.new.queue.connections.items desk.new }
        ensures one { IfOk result (λ done. done ≡ 1) }
        ensures open { OnOk result (desk.new.is_shut ≡ false) }
        ensures shut { OnErr result (desk.new.is_shut ≡ true) }
        ensures store { IfErr result (λ fault. fault ≡ ServingFault.Store) }
    {
        let is_answered = self.serve_connection(&mut connection, desk);
        match connection.stage {
            Stage::Writing { status } if is_answered => {
                connections.done.count_answer(status);
                self.write_at(connection, status, connections, transport);
            }
            _ => {
                connections.done.count_unanswered();
                self.drop_connection(connection, transport);
            }
        }
        if desk.is_shut() {
            return Err(ServingFault::Store);
        }
        Ok(1)
    }

    /// Reads once on a connection of its request, and serves it once it is whole or its client has ended it. Returns 1 where it was served
    /// or dropped, else 0. `Store`: a fault of the store has shut the desk. No other fault comes.
    #[tactic(auto, using(crate::proofs::ServedRequests::desk_unasked))]
    fn read_at<T: Transport, S: Alter + Drop>(
        &self,
        mut connection: Connection,
        connections: &mut Connections,
        transport: &mut T,
        desk: &mut Desk<S>,
    ) -> Result<u32, ServingFault>
        requires room { length connections.old.queue.connections.items ≤ 64 }
        requires is_live { desk.old.is_shut ≡ false }
        requires unserved { IsUnserved connection.stage }
        ensures same { IsSameStore S.Store desk.old desk.new }
        ensures serves { ServesAtMost S.Store self.now.terms 1 desk.old desk.new }
        ensures exchanges { GoesOn S.Store self.now.terms (made_by result)
            (T.traffic transport.old) (connection ∷ connections.old.queue.connections.items) desk.old
            (T.traffic transport.new) connections.new.queue.connections.items desk.new }
        ensures few { IfOk result (λ done. done ≤ 1) }
        ensures unasked { IfOk result (λ done. done ≡ 0 → desk.new ≡ desk.old) }
        ensures open { OnOk result (desk.new.is_shut ≡ false) }
        ensures shut { OnErr result (desk.new.is_shut ≡ true) }
        ensures store { IfErr result (λ fault. fault ≡ ServingFault.Store) }
    {
        let known = connections.figures(desk.digest());
        match self.receive(&mut connection, known, transport) {
            Received::Whole | Received::Ended => self.serve_at(
                connection,
                connections,
                transport,
                desk,
            ),
            Received::Lacks => {
                connections.queue.add(connection);
                Ok(0)
            }
            Received::Broken => {
                connections.done.count_unanswered();
                self.drop_connection(connection, transport);
                Ok(1)
            }
        }
    }

    /// Has a connection go on: its request is read and served, its answer is handed over, or what comes after it is passed over. Returns 1
    /// where it was served or dropped now, else 0. `Store`: a fault of the store has shut the desk. No other fault comes.
    #[tactic(auto, using(crate::proofs::ServedRequests::desk_unasked))]
    fn advance_at<T: Transport, S: Alter + Drop>(
        &self,
        index: usize,
        connections: &mut Connections,
        transport: &mut T,
        desk: &mut Desk<S>,
    ) -> Result<u32, ServingFault>
        requires within { index < length connections.old.queue.connections.items }
        requires is_live { desk.old.is_shut ≡ false }
        ensures same { IsSameStore S.Store desk.old desk.new }
        ensures serves { ServesAtMost S.Store self.now.terms 1 desk.old desk.new }
        ensures exchanges { GoesOn S.Store self.now.terms (made_by result)
            (T.traffic transport.old) connections.old.queue.connections.items desk.old
            (T.traffic transport.new) connections.new.queue.connections.items desk.new }
        ensures few { IfOk result (λ done. done ≤ 1) }
        ensures unasked { IfOk result (λ done. done ≡ 0 → desk.new ≡ desk.old) }
        ensures open { OnOk result (desk.new.is_shut ≡ false) }
        ensures shut { OnErr result (desk.new.is_shut ≡ true) }
        ensures store { IfErr result (λ fault. fault ≡ ServingFault.Store) }
    {
        let connection = connections.queue.remove(index);
        match connection.stage {
            Stage::Silent | Stage::Reading { .. } => {
                self.read_at(connection, connections, transport, desk)
            }
            Stage::Writing { status } => {
                self.write_at(connection, status, connections, transport);
                Ok(0)
            }
            Stage::Ending { pieces } => {
                self.pass_over_at(connection, pieces, connections, transport);
                Ok(0)
            }
        }
    }

    /// Serves so many connections of a transport: they are read side by side, and served one after the other as they become whole. Those
    /// that were dropped before they were served count.
    fn serve_each<T: Transport, S: Alter + Drop>(
        &self,
        connections: &mut Connections,
        transport: &mut T,
        count: u32,
        desk: &mut Desk<S>,
    ) -> Result<(), ServingFault>
        requires { desk.old.is_shut ≡ false }
        ensures same { IsSameStore S.Store desk.old desk.new }
        ensures serves { ServesAtMost S.Store self.now.terms count desk.old desk.new }
        ensures exchanges { GoesOn S.Store self.now.terms count
            (T.traffic transport.old) connections.old.queue.connections.items desk.old
            (T.traffic transport.new) connections.new.queue.connections.items desk.new }
        ensures ends { EndsServing desk.new.is_shut result }
        ensures routed { IfErr result (λ fault. fault ≢ ServingFault.Memory) }
    {
        let mut left = count;
        'connections: for _turn in 0..u64::MAX {
            if left == 0 {
                return Ok(());
            }
            let step = connections.next(self.milliseconds(), transport.may_take());
            let done = match step {
                Step::Advance(index) => self.advance_at(index, connections, transport, desk)?,
                Step::Drop(index) => self.drop_at(index, connections, transport),
                Step::Take => self.take_next(connections, transport)?,
                Step::Wait(_) => 0,
            };
            connections.ask_after(step, done, transport)?;
            left -= done;
        }
        Ok(())
    }

    /// Has a connection go on that was served, and drops another one.
    fn finish_at<T: Transport>(
        &self,
        index: usize,
        connections: &mut Connections,
        transport: &mut T,
    )
        requires { index < length connections.old.queue.connections.items }
        ensures held { KeepsHeld self.now.terms (T.traffic transport.old) connections.old.queue.connections.items
            (T.traffic transport.new) connections.new.queue.connections.items }
    {
        let connection = connections.queue.remove(index);
        match connection.stage {
            Stage::Silent | Stage::Reading { .. } => transport.close(connection.number),
            Stage::Writing { status } => self.write_at(connection, status, connections, transport),
            Stage::Ending { pieces } => self.pass_over_at(
                connection,
                pieces,
                connections,
                transport,
            ),
        }
    }

    /// Drops those that weren't served.
    fn drop_unserved<T: Transport>(&self, connections: &mut Connections, transport: &mut T)
        ensures held { KeepsHeld self.now.terms (T.traffic transport.old) connections.old.queue.connections.items
            (T.traffic transport.new) connections.new.queue.connections.items }
    {
        for _ in 0..=MOST_CONNECTIONS {
            let Some(index) = connections.queue.first_unserved() else {
                return;
            };
            let connection = connections.queue.remove(index);
            transport.close(connection.number);
        }
    }

    /// Hands over what is on its way of the answers, where none is served any more, within their time.
    fn finish<T: Transport>(&self, connections: &mut Connections, transport: &mut T)
        ensures held { KeepsHeld self.now.terms (T.traffic transport.old) connections.old.queue.connections.items
            (T.traffic transport.new) connections.new.queue.connections.items }
    {
        self.drop_unserved(connections, transport);
        for _turn in 0..u64::MAX {
            if connections.queue.connections.is_empty() {
                return;
            }
            let step = connections.next_of_taken(self.milliseconds());
            match step {
                Step::Advance(index) => self.finish_at(index, connections, transport),
                Step::Drop(index) => {
                    self.drop_at(index, connections, transport);
                }
                Step::Take | Step::Wait(_) => {}
            }
            if connections.ask(step, transport).is_err() {
                return;
            }
        }
    }
}

/// The routes, or want of memory for them.
fn routes_of(made: Result<Routes, RoutesFault>) -> Result<Routes, ServingFault>
    ensures ok { IfOk made (λ routes. result ≡ Ok routes) }
    ensures memory { OnErr made (result ≡ Err ServingFault.Memory) }
{
    match made {
        Ok(routes) => Ok(routes),
        Err(_) => Err(ServingFault::Memory),
    }
}

/// Serves so many connections of a transport by an open desk, as the terms say: they are read and answered side by side, and their requests
/// executed one after the other. What is answered to a request ends nothing,
/// and neither does a fault of a connection; one without a byte counts too, and one whose request isn't whole within its twenty seconds.
/// Each is noted in the log where there is one.
///
/// `Store`: a fault of the store has shut the desk; no further connection is taken. `Net`: no connection could be taken.
/// `Memory`: memory was refused for the routes or for the connections, before the first. No other fault comes.
pub fn serve_over<R: Clock + AllocGlobal, T: Transport, S: Alter + Drop>(
    rt: &R,
    transport: &mut T,
    terms: Terms<'_>,
    count: u32,
    desk: &mut Desk<S>,
    log: AccessLog<'_>,
) -> Result<(), ServingFault>
    requires { desk.old.is_shut ≡ false }
    ensures same { IsSameStore S.Store desk.old desk.new }
    ensures serves { ServesAtMost S.Store terms.entry count desk.old desk.new }
    ensures exchanges { ServesOver S.Store terms.entry count (T.traffic transport.old) (T.traffic transport.new) desk.old desk.new }
    ensures ends { EndsServing desk.new.is_shut result }
{
    let routes = routes_of(Routes::new(rt.alloc()))?;
    let Ok(mut connections) = Connections::new(rt.alloc(), nanoseconds_now(rt)) else {
        return Err(ServingFault::Memory);
    };
    let server = Server {
        alloc: rt.alloc(),
        clock: rt,
        began: Instant::now(rt).ok(),
        routes,
        terms,
        log,
    };
    let end = server.serve_each(&mut connections, transport, count, desk);
    server.finish(&mut connections, transport);
    end
}

/// Serves so many connections of a listener, as [`serve_over`] does those of any transport: the system's sockets are one that shows nothing of what
/// passes. `Net` comes also where the system doesn't report those that come in.
pub fn serve_listener<R: Net + Clock + AllocGlobal, S: Alter + Drop>(
    rt: &R,
    listener: &TcpListener,
    terms: Terms<'_>,
    count: u32,
    desk: &mut Desk<S>,
    log: AccessLog<'_>,
) -> Result<(), ServingFault>
    requires { desk.old.is_shut ≡ false }
    ensures same { IsSameStore S.Store desk.old desk.new }
    ensures serves { ServesAtMost S.Store terms.entry count desk.old desk.new }
    ensures ends { EndsServing desk.new.is_shut result }
{
    let mut sockets = Sockets::new(rt.alloc(), rt, listener)?;
    serve_over(rt, &mut sockets, terms, count, desk, log)
}
