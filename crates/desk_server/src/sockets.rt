//! The system's sockets as a transport.
ghost use Rattle.std.specs.Prelude.{◌≡◌, ◌≢◌, ◌≤◌, IfErr, IfSome, length, None};
ghost use Rattle.desk_server.specs.Connection.{IsTakenOf};

use crate::fault::ServingFault;
use crate::transport::{PIECE_BYTES, Piece, Transport};
use mio::unix::SourceFd;
use mio::{Events, Interest, Poll, Token};
use std::alloc::Global;
use std::io::{ErrorKind, Read, Write};
use std::net::{Net, Shutdown, TcpListener, TcpStream};
use std::os::fd::{AsRawFd, RawFd};
use std::time::Duration;

/// How many things the system reports at once at most: of each connection, and of the listener.
const MOST_EVENTS: usize = 66;

/// A connection that was taken and isn't closed.
#[derive(Drop)]
struct Socket {
    number: u64,
    stream: TcpStream,
}

/// Connections that may go on, as the system reported them last.
#[derive(Drop)]
struct Ready {
    numbers: [u64; MOST_EVENTS],
    reported: usize,
    handed_out: usize,
}

/// A listener, the connections that came in by it, and what the system reported of them.
#[derive(Drop)]
pub(crate) struct Sockets<'a> {
    listener: &'a TcpListener,
    poll: Poll,
    events: Events<Global>,
    may_take: bool,
    /// Whether the system refused a connection since it gave one, or had none.
    was_refused: bool,
    /// How many connections were taken.
    taken: u64,
    open: Vec<Socket>,
    ready: Ready,
}

/// By which the system names an open socket.
fn token_of(fd: RawFd) -> usize {
    fd.cast_unsigned() as usize
}

/// Reads once, without waiting.
fn read_piece(stream: &TcpStream, piece: &mut [u8]) -> Piece
    ensures { IsTakenOf result (length piece.old) }
{
    let mut input = stream;
    match input.read(piece) {
        Ok(0) => Piece::End,
        Ok(n) => Piece::Bytes(n),
        Err(e) => match e.kind() {
            ErrorKind::WouldBlock => Piece::Nothing,
            _ => Piece::Broken,
        },
    }
}

/// Writes once, without waiting.
fn write_piece(stream: &TcpStream, rest: &[u8]) -> Option<usize>
    ensures { IfSome result (λ n. n ≤ length rest.now) }
{
    let mut output = stream;
    match output.write(rest) {
        Ok(0) => None,
        Ok(n) => Some(n),
        Err(e) => match e.kind() {
            ErrorKind::WouldBlock => Some(0),
            _ => None,
        },
    }
}

/// The connection whose socket the system names so.
fn number_of(open: &[Socket], token: usize) -> Option<u64> {
    let socket = open
        .iter()
        .find(|it| token_of(it.stream.as_raw_fd()) == token)?;
    Some(socket.number)
}

impl Ready {
    /// Notes a connection after the others, where there is room for it.
    fn report(&mut self, number: u64) {
        if let Some(place) = self.numbers.get_mut(self.reported) {
            *place = number;
            self.reported += 1;
        }
    }

    /// The next connection that wasn't handed out.
    fn next(&mut self) -> Option<u64> {
        if self.handed_out >= self.reported {
            return None;
        }
        let number = self.numbers.get(self.handed_out)?;
        self.handed_out += 1;
        Some(*number)
    }
}

impl<'a> Sockets<'a> {
    /// Has the system report connections that come in. `Net`: it doesn't. `Memory`: memory was refused for what it reports.
    pub(crate) fn new<N: Net>(
        alloc: Global,
        net: &N,
        listener: &'a TcpListener,
    ) -> Result<Sockets<'a>, ServingFault>
        ensures { IfErr result (λ fault. fault ≢ ServingFault.Store) }
    {
        let Ok(events) = Events::with_capacity(alloc, MOST_EVENTS) else {
            return Err(ServingFault::Memory);
        };
        let Ok(open) = Vec::with_capacity(alloc, MOST_EVENTS) else {
            return Err(ServingFault::Memory);
        };
        let Ok(poll) = Poll::new(net) else {
            return Err(ServingFault::Net);
        };
        if listener.set_nonblocking(true).is_err() {
            return Err(ServingFault::Net);
        }
        let fd = listener.as_raw_fd();
        let token = Token(token_of(fd));
        if poll
            .registry()
            .register(&mut SourceFd(&fd), token, Interest::READABLE)
            .is_err()
        {
            return Err(ServingFault::Net);
        }
        Ok(Sockets {
            listener,
            poll,
            events,
            may_take: true,
            was_refused: false,
            taken: 0,
            open,
            ready: Ready {
                numbers: [0; MOST_EVENTS],
                reported: 0,
                handed_out: 0,
            },
        })
    }

    /// The socket of a connection, where it isn't closed.
    fn stream_of(&self, number: u64) -> Option<&TcpStream> {
        let socket = self.open.iter().find(|it| it.number == number)?;
        Some(&socket.stream)
    }

    /// Has the system report of a connection, which is followed, when it may go on so. Returns whether it does.
    fn expect(&self, number: u64, interest: Interest) -> bool {
        let Some(stream) = self.stream_of(number) else {
            return false;
        };
        let fd = stream.as_raw_fd();
        let token = Token(token_of(fd));
        self.poll
            .registry()
            .reregister(&mut SourceFd(&fd), token, interest)
            .is_ok()
    }

    /// Has the system report once more whether a connection comes in. Returns whether it does.
    fn expect_arrival(&self) -> bool {
        let fd = self.listener.as_raw_fd();
        let token = Token(token_of(fd));
        self.poll
            .registry()
            .reregister(&mut SourceFd(&fd), token, Interest::READABLE)
            .is_ok()
    }

    /// Notes that the system gives no connection, as where too many files are open. It says so also where none comes in, so it is asked whether
    /// one does, and tried again then. `Net`: one comes in, and was refused before.
    fn note_refused(&mut self) -> Result<Option<u64>, ServingFault>
        ensures net { IfErr result (λ fault. fault ≡ ServingFault.Net) }
    {
        if self.was_refused || !self.expect_arrival() {
            self.was_refused = false;
            return Err(ServingFault::Net);
        }
        self.was_refused = true;
        self.may_take = false;
        Ok(None)
    }

    /// Keeps a connection, and gives its number. `None`: memory was refused for it, and it is closed.
    fn keep(&mut self, stream: TcpStream) -> Option<u64> {
        let number = self.taken;
        if self.open.push(Socket { number, stream }).is_err() {
            return None;
        }
        self.taken = number.saturating_add(1);
        Some(number)
    }
}

impl Transport for Sockets<'_> {
    ghost traffic = { λ sockets. None };

    fn may_take(&self) -> bool {
        self.may_take
    }

    fn take(&mut self) -> Result<Option<u64>, ServingFault> {
        match self.listener.accept() {
            Ok((stream, _)) => {
                self.was_refused = false;
                Ok(self.keep(stream))
            }
            Err(e) => match e.kind() {
                ErrorKind::WouldBlock => {
                    self.was_refused = false;
                    self.may_take = false;
                    Ok(None)
                }
                ErrorKind::ConnectionAborted | ErrorKind::Interrupted => Ok(None),
                _ => self.note_refused(),
            },
        }
    }

    fn follow(&mut self, number: u64) -> bool {
        let Some(stream) = self.stream_of(number) else {
            return false;
        };
        if stream.set_nonblocking(true).is_err() {
            return false;
        }
        let fd = stream.as_raw_fd();
        self.poll
            .registry()
            .register(&mut SourceFd(&fd), Token(token_of(fd)), Interest::READABLE)
            .is_ok()
    }

    fn read(&mut self, number: u64, room: usize, piece: &mut [u8; PIECE_BYTES]) -> Piece {
        match self.stream_of(number) {
            Some(stream) => read_piece(stream, &mut piece[..room]),
            None => Piece::Broken,
        }
    }

    fn write(&mut self, number: u64, rest: &[u8]) -> Option<usize> {
        write_piece(self.stream_of(number)?, rest)
    }

    fn await_room(&mut self, number: u64) -> bool {
        self.expect(number, Interest::WRITABLE)
    }

    fn end(&mut self, number: u64) -> bool {
        let is_ended = match self.stream_of(number) {
            Some(stream) => stream.shutdown(Shutdown::Write).is_ok(),
            None => false,
        };
        is_ended && self.expect(number, Interest::READABLE)
    }

    fn close(&mut self, number: u64) {
        let found = self.open.iter().position(|it| it.number == number);
        if let Some(index) = found {
            self.open.remove(index);
        }
    }

    fn ask(&mut self, most: Option<u64>) -> Result<(), ServingFault> {
        self.ready.reported = 0;
        self.ready.handed_out = 0;
        let most = most.map(Duration::from_millis);
        if self.poll.poll(&mut self.events, most).is_err() {
            return Err(ServingFault::Net);
        }
        let listener = token_of(self.listener.as_raw_fd());
        for event in self.events.iter() {
            let token = usize::from(event.token());
            if token == listener {
                self.may_take = true;
            } else if let Some(number) = number_of(self.open.as_slice(), token) {
                self.ready.report(number);
            }
        }
        Ok(())
    }

    fn next_ready(&mut self) -> Option<u64> {
        self.ready.next()
    }
}
