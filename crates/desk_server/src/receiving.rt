//! Requests, received side by side.
ghost use Rattle.std.specs.Prelude.{◌≡◌, ◌≢◌, true, false, IfSome, List};
ghost use Rattle.plant_base.specs.{State};
ghost use Rattle.plant_keeper.specs.{IsSameDesk};
ghost use Rattle.desk_server.specs.Exchanges.{Exchange, HasMade, IsUnserved, Lacks, MakesOne};
ghost use Rattle.desk_server.specs.Exchanges.{BeginsToAnswer, ReadsOn, reply_of};
ghost use Rattle.desk_server.specs.Receiving.{AnswersConnection, IsReceived};
ghost use Rattle.desk_server.specs.Serving.{HasServed};

use crate::connection::{Connection, Stage};
use crate::server::Server;
use crate::transport::{Piece, Transport};
use plant_http_requests::{Figures, MOST_READS, RequestProgress, Terms, request_progress};
use plant_keeper::Keeper;
use std::rt::Clock;

/// What there is of a request.
#[derive(Clone, Copy, Debug, PartialEq, Eq)]
pub(crate) enum Received {
    /// It is whole.
    Whole,
    /// Its client has ended it.
    Ended,
    /// More of it may come.
    Lacks,
    /// It isn't read on: a read failed, or memory was refused, or all its reads were made.
    Broken,
}

impl Connection {
    /// Whether its request has taken all its reads.
    fn has_made_its_reads(&self) -> bool {
        matches!(self.stage, Stage::Reading { reads, .. } if reads >= MOST_READS)
    }

    /// Counts a read that gave bytes, at so many milliseconds.
    fn count_read(&mut self, now: u64)
        ensures unchanged { self.new.request ≡ self.old.request }
        ensures time { self.new.now ≡ self.old.now }
        ensures number { self.new.number ≡ self.old.number }
        ensures stage { IsUnserved self.new.stage }
    {
        self.stage = match self.stage {
            Stage::Reading { first, reads } => Stage::Reading {
                first,
                reads: reads.saturating_add(1),
            },
            _ => Stage::Reading {
                first: now,
                reads: 1,
            },
        };
        self.moved = now;
    }

    /// Makes room for a request of so many bytes in all. Returns whether memory was given.
    fn make_room(&mut self, size: usize) -> bool
        ensures unchanged { self.new.request.items ≡ self.old.request.items }
        ensures time { self.new.now ≡ self.old.now }
        ensures number { self.new.number ≡ self.old.number }
        ensures stage { self.new.stage ≡ self.old.stage }
    {
        self.size = Some(size);
        let lacking = size.saturating_sub(self.request.len());
        self.request.reserve_exact(lacking).is_ok()
    }
}

impl<R: Clock> Server<'_, R> {
    /// What there is of a request of which bytes have come.
    fn judge(&self, connection: &mut Connection) -> Received
        ensures whole { IsReceived self.now.terms connection.new.now connection.new.request.items result }
        ensures unchanged { connection.new.request.items ≡ connection.old.request.items }
        ensures time { connection.new.now ≡ connection.old.now }
        ensures number { connection.new.number ≡ connection.old.number }
        ensures stage { connection.new.stage ≡ connection.old.stage }
        ensures unended { result ≢ Received.Ended }
    {
        if matches!(connection.size, Some(size) if connection.request.len() < size) {
            return Received::Lacks;
        }
        let terms = Terms {
            now: connection.now,
            ..self.terms
        };
        match request_progress(&self.routes, terms, connection.request.as_slice()) {
            RequestProgress::Whole => Received::Whole,
            RequestProgress::LacksHead => Received::Lacks,
            RequestProgress::LacksBody(size) => {
                if connection.make_room(size) {
                    Received::Lacks
                } else {
                    Received::Broken
                }
            }
        }
    }

    /// Notes what is known now on a connection of whose request nothing has come.
    fn note_now(&self, connection: &mut Connection, done: Figures)
        ensures number { connection.new.number ≡ connection.old.number }
        ensures stage { connection.new.stage ≡ connection.old.stage }
        ensures unchanged { connection.new.request ≡ connection.old.request }
        ensures answer { connection.new.answer ≡ connection.old.answer }
        ensures handed { connection.new.handed ≡ connection.old.handed }
    {
        if matches!(connection.stage, Stage::Silent) {
            connection.now = self.now(done);
        }
    }

    /// Reads once of a request, without waiting. What is known is noted before its first byte, where the server has done this so far.
    pub(crate) fn receive<T: Transport>(
        &self,
        connection: &mut Connection,
        done: Figures,
        transport: &mut T,
    ) -> Received
        ensures whole { IsReceived self.now.terms connection.new.now connection.new.request.items result }
        ensures shown { ReadsOn self.now.terms (T.traffic transport.old) connection.old
            (T.traffic transport.new) connection.new result }
    {
        if connection.has_made_its_reads() {
            return Received::Broken;
        }
        self.note_now(connection, done);
        match connection.receive(transport) {
            Piece::Bytes(_) => {
                connection.count_read(self.milliseconds());
                self.judge(connection)
            }
            Piece::End => Received::Ended,
            Piece::Nothing => {
                connection.is_ready = false;
                Received::Lacks
            }
            Piece::Broken => Received::Broken,
        }
    }

    /// Serves what was received on a connection, and has the answer to it, whole, be handed over to that connection. Returns whether
    /// there is one.
    pub(crate) fn serve_connection<K: Keeper>(
        &self,
        connection: &mut Connection,
        keeper: &mut K,
    ) -> bool
        ensures same { IsSameDesk K.honest K.schema K.foreign_tables keeper.old keeper.new }
        ensures serves { K.honest keeper.new → K.shut keeper.old ≡ false → (s : State)
            → K.represents keeper.old s → HasServed self.now.terms 1 s
            (K.represents keeper.new) (K.shut keeper.new) (K.crash_states keeper.new) }
        ensures answers { result ≡ true → K.honest keeper.new → K.shut keeper.old ≡ false → (s : State)
            → K.represents keeper.old s → AnswersConnection self.now.terms (K.schema keeper.old) s connection.old
            (K.represents keeper.new) (K.shut keeper.new) (K.crash_states keeper.new) connection.new }
        ensures makes { K.honest keeper.new → K.shut keeper.old ≡ false → (s : State)
            → (journal : List (Exchange self.now.terms)) → Lacks connection.old.number journal
            → HasMade self.now.terms (K.schema keeper.old) s journal
            (K.represents keeper.old) (K.shut keeper.old) (K.crash_states keeper.old)
            → MakesOne self.now.terms connection.old.now connection.old.number connection.old.request.items (K.schema keeper.old) s journal
            (K.represents keeper.new) (K.shut keeper.new) (K.crash_states keeper.new) (reply_of result connection.new) }
        ensures number { connection.new.number ≡ connection.old.number }
        ensures begins { result ≡ true → BeginsToAnswer connection.new }
        ensures unanswered { result ≡ false → connection.new ≡ connection.old }
        ensures unchanged { K.shut keeper.old ≡ true → keeper.new ≡ keeper.old }
    {
        match self.reply_to(connection.now, connection.request.as_slice(), keeper) {
            Some(reply) => {
                connection.stage = Stage::Writing {
                    status: reply.status,
                };
                connection.answer = reply.text;
                connection.handed = 0;
                connection.moved = self.milliseconds();
                connection.is_ready = true;
                true
            }
            None => false,
        }
    }
}
