//! The connections that were taken, and what is done next with them.
ghost use Rattle.std.specs.Prelude.{◌≡◌, ◌<◌, ◌≤◌, ◌++◌, [], ◌∷◌, length, None, IfOk, IfSome};
ghost use Rattle.std.specs.Prelude.{vec_capacity, slice_index_or};
ghost use Rattle.std.specs.List.{remove};
ghost use Rattle.desk_server.specs.Queue.{FitsStep, IsNext, first_over, first_ready, goes_before, marked};
ghost use Rattle.desk_server.specs.Queue.{soonest, waits_for};

use crate::connection::Connection;
use crate::deadline::time_left;
use std::alloc::{AllocError, Global};

/// How many connections there are at most. One more is taken before the one that has stayed as it is for longest is dropped, so
/// that none is dropped for one that isn't there.
pub(crate) const MOST_CONNECTIONS: usize = 64;

/// The connections, 64 at most and one that was just taken, in the order in which they last moved on.
#[derive(Drop)]
pub(crate) struct Queue {
    pub(crate) connections: Vec<Connection>,
    ghost bound: { length connections.items ≤ 65 },
    ghost room: { 65 ≤ vec_capacity connections },
}

/// What is done next.
#[derive(Clone, Copy, Debug, PartialEq, Eq)]
pub(crate) enum Step {
    /// The connection at this index goes on: it is read, or its answer is written.
    Advance(usize),
    /// The connection at this index is dropped.
    Drop(usize),
    /// A connection is taken, where one is there.
    Take,
    /// Nothing is to be done for so many milliseconds, or for as long as nothing comes.
    Wait(Option<u64>),
}

/// What is known of further connections.
#[derive(Clone, Copy, Debug, PartialEq, Eq)]
pub(crate) struct Arrivals {
    /// Whether one may be there to be taken.
    pub(crate) may_take: bool,
    /// Whether it is their turn, before a connection that is ready.
    pub(crate) have_turn: bool,
}

/// The first connection whose time is over.
fn first_over(connections: &[Connection], now: u64) -> Option<usize>
    ensures first { result ≡ first_over connections.now now }
    ensures bound { IfSome result (λ index. index < length connections.now) }
{
    connections
        .iter()
        .position(|c| time_left(c.stage, c.moved, now) == 0)
}

/// The first connection that may go on.
fn first_ready(connections: &[Connection]) -> Option<usize>
    ensures first { result ≡ first_ready connections.now }
    ensures bound { IfSome result (λ index. index < length connections.now) }
{
    connections.iter().position(|c| c.is_ready)
}

/// The first connection of a number that isn't ready.
fn waits_for(connections: &[Connection], number: u64) -> Option<usize>
    ensures first { result ≡ waits_for connections.now number }
    ensures bound { IfSome result (λ index. index < length connections.now) }
{
    connections
        .iter()
        .position(|c| c.number == number && !c.is_ready)
}

/// For how many milliseconds the connections may stay as they are, `None` where there is none.
fn soonest(connections: &[Connection], now: u64) -> Option<u64>
    ensures { result ≡ soonest connections.now now }
{
    connections
        .iter()
        .map(|c| time_left(c.stage, c.moved, now))
        .min()
}

/// Whether one may be there that is taken before one that is ready. Where 64 are there it waits, so that none of those is dropped for it that can be
/// served.
fn goes_before(connections: &[Connection], arrivals: Arrivals) -> bool
    ensures { result ≡ goes_before connections.now arrivals }
{
    arrivals.may_take && arrivals.have_turn && connections.len() < MOST_CONNECTIONS
}

/// What is done next where no time is over.
fn step_in_time(connections: &[Connection], now: u64, arrivals: Arrivals) -> Step
    requires bound { length connections.now ≤ 65 }
    requires in_time { first_over connections.now now ≡ None }
    ensures next { IsNext connections.now now arrivals result }
    ensures fits { FitsStep result connections.now }
{
    if connections.len() > MOST_CONNECTIONS {
        return Step::Drop(0);
    }
    if goes_before(connections, arrivals) {
        return Step::Take;
    }
    match first_ready(connections) {
        Some(index) => Step::Advance(index),
        None if arrivals.may_take => Step::Take,
        None => Step::Wait(soonest(connections, now)),
    }
}

/// What is done next: a connection is dropped whose time is over, or that has stayed as it is for longest, where more than 64 are
/// there; else one is taken, where it is the turn of one that may be there and fewer are; else the first goes on that is ready; else one is taken.
fn next_step(connections: &[Connection], now: u64, arrivals: Arrivals) -> Step
    requires { length connections.now ≤ 65 }
    ensures next { IsNext connections.now now arrivals result }
    ensures fits { FitsStep result connections.now }
{
    match first_over(connections, now) {
        Some(index) => Step::Drop(index),
        None => step_in_time(connections, now, arrivals),
    }
}

impl Queue {
    /// No connection.
    pub(crate) fn new(alloc: Global) -> Result<Queue, AllocError>
        ensures { IfOk result (λ queue. queue.connections.items ≡ []) }
    {
        Ok(Queue {
            connections: Vec::with_capacity(alloc, MOST_CONNECTIONS + 1)?,
        })
    }

    /// What is done next.
    pub(crate) fn next(&self, now: u64, arrivals: Arrivals) -> Step
        ensures next { IsNext self.now.connections.items now arrivals result }
        ensures fits { FitsStep result self.now.connections.items }
    {
        next_step(self.connections.as_slice(), now, arrivals)
    }

    /// Puts a connection after the others.
    pub(crate) fn add(&mut self, connection: Connection)
        requires { length self.old.connections.items ≤ MOST_CONNECTIONS }
        ensures { self.new.connections.items ≡ self.old.connections.items ++ connection ∷ [] }
    {
        self.connections.push_reserved(connection);
    }

    /// Takes a connection out.
    pub(crate) fn remove(&mut self, index: usize) -> Connection
        requires { index < length self.old.connections.items }
        ensures value { result ≡ slice_index_or self.old.connections.items index result }
        ensures rest { self.new.connections.items ≡ remove self.old.connections.items index }
    {
        self.connections.remove(index)
    }

    /// The first that wasn't served.
    pub(crate) fn first_unserved(&self) -> Option<usize>
        ensures { IfSome result (λ index. index < length self.now.connections.items) }
    {
        self.connections.iter().position(|c| !c.is_served())
    }

    /// Has the connection of a number go on after those that may already. Nothing else changes.
    pub(crate) fn mark(&mut self, number: u64)
        ensures { self.new.connections.items ≡ marked self.old.connections.items number }
    {
        if let Some(index) = waits_for(self.connections.as_slice(), number) {
            let mut connection = self.remove(index);
            connection.is_ready = true;
            self.add(connection);
        }
    }
}
