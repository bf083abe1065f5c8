//! What the server asks of the system: where connections come in, and what passes over them.

use crate::fault::ServingFault;

/// How many bytes one read gives at most.
pub const PIECE_BYTES: usize = 4096;

/// What one read of a connection gave.
#[derive(Clone, Copy, Debug, PartialEq, Eq)]
pub enum Piece {
    /// So many bytes.
    Bytes(usize),
    /// The client has ended its side.
    End,
    /// Nothing is there now.
    Nothing,
    /// The read failed, or was interrupted.
    Broken,
}

/// Where connections come in. Each has a number: how many came before it.
///
/// A transport may show what has passed over its connections, as one in memory does; what the system's sockets have received and
/// taken is shown to nobody. Who is generic over it can't know which it is, and serves both alike.
pub trait Transport {
    ghost use Rattle.std.specs.Prelude.{◌≡◌, ◌≤◌, ℕ, List, length, Option, IfErr, IfSome};
    ghost use Rattle.desk_server.specs.Traffic.{Traffic, HasRead, HasWritten, TakesConnection};
    ghost use Rattle.desk_server.specs.Connection.{IsTakenOf};

    /// What has passed over the connections that were taken, in their order, where it is shown.
    ghost traffic: { Self → Option (List Traffic) };

    /// Whether a connection may be there to be taken.
    fn may_take(&self) -> bool;

    /// Takes a connection, where one is there that its client hasn't ended, and gives its number. `Net`: the system refuses it, and
    /// another may be there. No other fault comes.
    fn take(&mut self) -> Result<Option<u64>, ServingFault>
        ensures taken { TakesConnection result (traffic self.old) (traffic self.new) }
        ensures net { IfErr result (λ fault. fault ≡ ServingFault.Net) };

    /// Has the system report when there is something to be read on a connection, which never waits from now on. Returns whether it does.
    fn follow(&mut self, number: u64) -> bool
        ensures same { traffic self.new ≡ traffic self.old };

    /// Reads once from a connection, without waiting, so many bytes at most.
    fn read(&mut self, number: u64, room: usize, piece: &mut [u8; PIECE_BYTES]) -> Piece
        requires { room ≤ PIECE_BYTES }
        ensures received { HasRead result number piece.new (traffic self.old) (traffic self.new) }
        ensures within { IsTakenOf result room };

    /// Writes once to a connection, without waiting, and says how many bytes were taken. `Some(0)`: it takes nothing now. `None`: the
    /// write failed, was interrupted, or took no byte.
    fn write(&mut self, number: u64, rest: &[u8]) -> Option<usize>
        ensures sent { HasWritten result number rest.now (traffic self.old) (traffic self.new) }
        ensures within { IfSome result (λ n. n ≤ length rest.now) };

    /// Has the system report when a connection, which is followed, takes bytes again. Returns whether it does.
    fn await_room(&mut self, number: u64) -> bool
        ensures same { traffic self.new ≡ traffic self.old };

    /// Ends the server's side of a connection, which is followed, and has the system report what its client still sends. Returns whether it
    /// does.
    fn end(&mut self, number: u64) -> bool
        ensures same { traffic self.new ≡ traffic self.old };

    /// Closes a connection.
    fn close(&mut self, number: u64)
        ensures same { traffic self.new ≡ traffic self.old };

    /// Asks the system what is there: for so many milliseconds at most, or until something comes. `Net`: it doesn't say. No other fault
    /// comes.
    fn ask(&mut self, most: Option<u64>) -> Result<(), ServingFault>
        ensures same { traffic self.new ≡ traffic self.old }
        ensures net { IfErr result (λ fault. fault ≡ ServingFault.Net) };

    /// The next connection of which the system has reported that it may go on.
    fn next_ready(&mut self) -> Option<u64>
        ensures same { traffic self.new ≡ traffic self.old };
}
