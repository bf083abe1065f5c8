//! One connection: what came of it, and what it is answered.
ghost use Rattle.std.specs.Prelude.{◌≡◌, ◌<◌, ◌≤◌, ◌++◌, length, IfSome};
ghost use Rattle.desk_server.specs.Connection.{HandsOver, HasPassedOver, HasReceived, IsSentFrom};
ghost use Rattle.desk_server.specs.Connection.{Receives};

use crate::log::Arrival;
use crate::transport::{PIECE_BYTES, Piece, Transport};
use plant_http_requests::Now;

/// How far a connection has come.
#[derive(Clone, Copy, Debug, PartialEq, Eq)]
pub(crate) enum Stage {
    /// No byte came.
    Silent,
    /// Bytes came of its request, the first of them at this moment, by so many reads.
    Reading {
        /// When its first byte came, in milliseconds since serving began.
        first: u64,
        /// How many reads gave bytes.
        reads: u32,
    },
    /// Its answer, of this status, is on its way.
    Writing {
        /// The status of the answer.
        status: u16,
    },
    /// Its answer was handed over whole, and what its client sends after its request is passed over, so many pieces so far.
    Ending {
        /// How many pieces came.
        pieces: u32,
    },
}

/// A connection that was taken.
#[derive(Drop)]
pub(crate) struct Connection {
    /// Its number at the transport.
    pub(crate) number: u64,
    pub(crate) arrival: Arrival,
    pub(crate) stage: Stage,
    /// When it last moved on, in milliseconds since serving began.
    pub(crate) moved: u64,
    /// Whether it may go on at once: there is something to be read, or room for what is written.
    pub(crate) is_ready: bool,
    /// What was known before its first byte was read.
    pub(crate) now: Now,
    /// What was received of its request.
    pub(crate) request: Vec<u8>,
    /// How many bytes its request has in all, where its head says so.
    pub(crate) size: Option<usize>,
    /// The answer to its request, once it was served.
    pub(crate) answer: Vec<u8>,
    /// How many bytes of the answer were handed over.
    pub(crate) handed: usize,
}

impl Connection {
    /// Whether its request was served.
    pub(crate) fn is_served(&self) -> bool {
        matches!(self.stage, Stage::Writing { .. } | Stage::Ending { .. })
    }

    /// How many bytes the next read of its request gives at most: none after its body.
    fn room(&self) -> usize
        ensures { result ≤ PIECE_BYTES }
    {
        match self.size {
            Some(size) => size.saturating_sub(self.request.len()).min(PIECE_BYTES),
            None => PIECE_BYTES,
        }
    }

    /// Reads once of its request, and keeps what came. `Broken`: the read failed, or memory was refused for the bytes.
    pub(crate) fn receive<T: Transport>(&mut self, transport: &mut T) -> Piece
        ensures received { HasReceived result self.old.request.items self.new.request.items }
        ensures shown { Receives result self.old.number self.old.request.items self.new.request.items
            (T.traffic transport.old) (T.traffic transport.new) }
        ensures number { self.new.number ≡ self.old.number }
        ensures stage { self.new.stage ≡ self.old.stage }
        ensures unanswered { self.new.answer ≡ self.old.answer }
        ensures handed { self.new.handed ≡ self.old.handed }
        ensures unchanged { self.new.now ≡ self.old.now }
    {
        let mut piece = [0u8; PIECE_BYTES];
        let came = transport.read(self.number, self.room(), &mut piece);
        if let Piece::Bytes(n) = came {
            if self.request.extend_from_slice(&piece[..n]).is_err() {
                return Piece::Broken;
            }
        }
        came
    }

    /// Hands over once of the rest of its answer, as much as the system takes now, and says how many bytes it took. `None`: the
    /// connection takes no more.
    pub(crate) fn hand_over<T: Transport>(&mut self, transport: &mut T) -> Option<usize>
        ensures sent { IsSentFrom result (length self.old.answer.items) self.old.handed self.new.handed }
        ensures shown { HandsOver result self.old.number self.old.answer.items self.old.handed self.new.handed
            (T.traffic transport.old) (T.traffic transport.new) }
        ensures number { self.new.number ≡ self.old.number }
        ensures stage { self.new.stage ≡ self.old.stage }
        ensures unchanged { self.new.answer ≡ self.old.answer }
        ensures received { self.new.request ≡ self.old.request }
    {
        let len = self.answer.len();
        if self.handed >= len {
            return Some(0);
        }
        let sent = transport.write(self.number, &self.answer[self.handed..])?;
        self.handed += sent;
        Some(sent)
    }

    /// Reads once of what its client sends after its request, and passes it over.
    pub(crate) fn pass_over<T: Transport>(&self, transport: &mut T) -> Piece
        ensures { HasPassedOver self.entry.now.number (T.traffic transport.old) (T.traffic transport.new) }
    {
        let mut piece = [0u8; PIECE_BYTES];
        transport.read(self.number, PIECE_BYTES, &mut piece)
    }
}
