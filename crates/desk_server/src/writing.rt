//! Answers, handed over side by side.
ghost use Rattle.std.specs.Prelude.{◌≤◌, ◌≡◌, ◌∷◌, length};
ghost use Rattle.desk_server.specs.Exchanges.{IsWriting, KeepsHeld};

use crate::connection::{Connection, Stage};
use crate::listening::Connections;
use crate::server::Server;
use crate::transport::{Piece, Transport};
use std::rt::Clock;

/// How many pieces are read at most of what a client sends after its request.
const MOST_PIECES: u32 = 128;

impl<R: Clock> Server<'_, R> {
    /// Drops a connection, and notes it as unanswered unless its answer was handed over.
    pub(crate) fn drop_connection<T: Transport>(&self, connection: Connection, transport: &mut T)
        ensures { T.traffic transport.new ≡ T.traffic transport.old }
    {
        transport.close(connection.number);
        if !matches!(connection.stage, Stage::Ending { .. }) {
            self.log
                .note_request(connection.arrival, connection.request.as_slice(), None);
        }
    }

    /// Ends the answer of a connection, of this status, which was handed over: its client learns that no more comes, and is read
    /// on for a while.
    ///
    /// A socket that is closed with unread bytes in it resets the connection, and a reset can destroy an answer on its way.
    /// So the connection is closed in stages (RFC 9112, section 9.6).
    fn end_answer<T: Transport>(
        &self,
        mut connection: Connection,
        status: u16,
        connections: &mut Connections,
        transport: &mut T,
    )
        requires { length connections.old.queue.connections.items ≤ 64 }
        ensures held { KeepsHeld self.now.terms (T.traffic transport.old) (connection ∷ connections.old.queue.connections.items)
            (T.traffic transport.new) connections.new.queue.connections.items }
    {
        self.log.note_request(
            connection.arrival,
            connection.request.as_slice(),
            Some(status),
        );
        connection.stage = Stage::Ending { pieces: 0 };
        connection.answer = Vec::new(self.alloc);
        connection.request = Vec::new(self.alloc);
        connection.moved = self.milliseconds();
        connection.is_ready = true;
        if transport.end(connection.number) {
            connections.queue.add(connection);
        } else {
            transport.close(connection.number);
        }
    }

    /// Hands over once of the answer of a connection, of this status, as much as the system takes now.
    pub(crate) fn write_at<T: Transport>(
        &self,
        mut connection: Connection,
        status: u16,
        connections: &mut Connections,
        transport: &mut T,
    )
        requires room { length connections.old.queue.connections.items ≤ 64 }
        requires writing { IsWriting connection.stage }
        ensures held { KeepsHeld self.now.terms (T.traffic transport.old) (connection ∷ connections.old.queue.connections.items)
            (T.traffic transport.new) connections.new.queue.connections.items }
    {
        let Some(sent) = connection.hand_over(transport) else {
            self.drop_connection(connection, transport);
            return;
        };
        if connection.handed >= connection.answer.len() {
            self.end_answer(connection, status, connections, transport);
            return;
        }
        if sent > 0 {
            connection.moved = self.milliseconds();
            connections.queue.add(connection);
            return;
        }
        connection.is_ready = false;
        if transport.await_room(connection.number) {
            connections.queue.add(connection);
        } else {
            self.drop_connection(connection, transport);
        }
    }

    /// Reads once of what a client sends after its request, of which so many pieces came.
    pub(crate) fn pass_over_at<T: Transport>(
        &self,
        mut connection: Connection,
        pieces: u32,
        connections: &mut Connections,
        transport: &mut T,
    )
        requires room { length connections.old.queue.connections.items ≤ 64 }
        requires ending { connection.stage ≡ Stage.Ending pieces }
        ensures held { KeepsHeld self.now.terms (T.traffic transport.old) (connection ∷ connections.old.queue.connections.items)
            (T.traffic transport.new) connections.new.queue.connections.items }
    {
        match connection.pass_over(transport) {
            Piece::Bytes(_) if pieces < MOST_PIECES => {
                connection.stage = Stage::Ending { pieces: pieces + 1 };
                connections.queue.add(connection);
            }
            Piece::Nothing => {
                connection.is_ready = false;
                connections.queue.add(connection);
            }
            Piece::Bytes(_) | Piece::End | Piece::Broken => transport.close(connection.number),
        }
    }
}
