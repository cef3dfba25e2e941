// The connections of a worker.
ghost use Rattle.std.specs.Prelude.{None};
ghost use Rattle.canvas_turns.specs.Served.{ConnectionSteps};
ghost use Rattle.app_server.specs.Live.{LiveGoesTo, LiveReplies, LiveTells, TellsSomeHere};

use crate::forwarded::forwarded_by;
use crate::live_seat::LiveSeat;
use crate::seat_terms::SeatFlags;
use crate::streams::{Incoming, Outgoing, Socket};
use crate::timing::{Moment, Watch};
use app_listener::{Limits, Shared};
use canvas_board::RoomName;
use canvas_journal::Keeper;
use canvas_live::Place;
use canvas_room::Lock;
use canvas_turns::{Connection, LineEnd, Step, Waits};
use http::{HeaderName, HeaderValue, Request, Response};
use room_handler::Terms;
use std::alloc::{AllocError, Global};
use std::cell::Cell;
use std::io::{self, Read, Write};
use std::net::TcpStream;
use std::rc::Rc;
use std::sync::Wait;
use std::time::Clock;
use tungstenite::handshake::server::ErrorResponse;
use tungstenite::{Callback, WebSocketConfig};

// How many bytes a connection takes at once of those that were read.
const READ_BYTES: usize = 4 * 1024;

/// A connection of a worker, and what is known of it.
#[derive(Drop)]
pub(crate) struct Peer {
    /// Its sockets; `None` while it takes a step.
    pub(crate) connection: Option<Connection<Incoming, Outgoing>>,
    /// From where its client is told unasked, if it is.
    pub(crate) place: Option<Place>,
    /// What its seat keeps of it from one step to the next.
    pub(crate) flags: SeatFlags,
    /// When it goes on.
    pub(crate) watch: Watch,
    pub(crate) socket: Rc<Socket, Global>,
    /// The number by which it is logged.
    pub(crate) number: u64,
    /// Whether it is in the list of those that go on now, and of those that listen.
    pub(crate) is_ready: bool,
    pub(crate) is_listed: bool,
    /// Whether its peer has sent something since its last step, and how many bytes were read since it rested.
    pub(crate) has_come: bool,
    pub(crate) read: usize,
    /// How many copies had been written when it began to wait for one that its client asks for, if it does.
    pub(crate) waits_since: Option<u64>,
    /// Set once an operator ends it.
    pub(crate) is_kicked: bool,
}

impl Peer {
    /// Checks whether it may be put in the list of those that go on now.
    pub(crate) fn may_go(&self, now: u64) -> bool {
        !self.is_ready && !self.watch.is_tired(now)
    }
}

/// Why a connection isn't served.
#[derive(Clone, Copy, Debug, PartialEq, Eq)]
pub(crate) enum End {
    SocketFailed,
    NoHandshake,
    Memory,
    Kicked,
    Served(LineEnd),
}

impl End {
    /// What is logged of it.
    pub(crate) fn words(self) -> &'static str {
        match self {
            End::SocketFailed | End::Served(LineEnd::Failed) => "has ended: the socket failed",
            End::NoHandshake => "has ended: the handshake failed",
            End::Kicked => "has ended: the operator ended it",
            End::Served(LineEnd::Left) => "has ended: the client left",
            End::Served(LineEnd::TooLarge) => "has ended: a message was too large",
            End::Served(LineEnd::Silent) => "has ended: it was silent too long",
            End::Served(LineEnd::Slow) => "has ended: it took too little of what waited for it",
            End::Memory | End::Served(LineEnd::Memory) => "has ended: out of memory",
            End::Served(LineEnd::Broken) => {
                "has ended: the client broke the protocol, or went without a word"
            }
        }
    }
}

/// Makes the handshake of a connection whose request has come whole. Returns the address that its proxy names, if it is trusted and names
/// one, and how long its messages may be.
pub(crate) fn shake(
    alloc: Global,
    shared: &Shared,
    stream: &TcpStream,
) -> (Option<String>, Result<WebSocketConfig, End>) {
    if set_up(stream).is_err() {
        return (None, Err(End::SocketFailed));
    }
    let client = Cell::new(None);
    let config = handshake(alloc, shared, stream, &client);
    (client.take(), config)
}

// From now on no call blocks, and each answer leaves at once; without that some would wait for an acknowledgement.
fn set_up(stream: &TcpStream) -> io::Result<()> {
    stream.set_nonblocking(true)?;
    stream.set_nodelay(true)
}

// Makes a handshake, and keeps the address that its proxy names, if it is trusted and names one. Returns how long its messages may be.
fn handshake(
    alloc: Global,
    shared: &Shared,
    stream: &TcpStream,
    client: &Cell<Option<String>>,
) -> Result<WebSocketConfig, End> {
    let naming = Naming {
        alloc,
        document: shared.site.identity.as_str(),
        trusts_proxy: shared.trusts_proxy,
        client,
    };
    let Ok(accepted) = tungstenite::accept_hdr(alloc, stream, naming) else {
        return Err(End::NoHandshake);
    };
    let most = Some(shared.limits.message_bytes.saturating_mul(2));
    Ok(
        accepted
            .get_config()
            .read_buffer_size(READ_BYTES)
            .max_message_size(most)
            .max_frame_size(most),
    )
}

/// Returns the connection of this socket. Errors: out of memory.
pub(crate) fn peer_of(
    alloc: Global,
    limits: Limits,
    stream: TcpStream,
    config: WebSocketConfig,
    number: u64,
    moment: Moment,
) -> Result<Peer, AllocError> {
    let socket = Rc::new(alloc, Socket::new(alloc, stream))?;
    let incoming = Incoming {
        socket: socket.clone()?,
    };
    let outgoing = Outgoing {
        socket: socket.clone()?,
    };
    Ok(Peer {
        connection: Some(Connection::new(alloc, incoming, outgoing, config)),
        place: None,
        flags: SeatFlags::new(),
        watch: Watch::new(moment, limits.idle_seconds),
        socket,
        number,
        is_ready: true,
        is_listed: false,
        has_come: false,
        read: 0,
        waits_since: None,
        is_kicked: false,
    })
}

/// Takes a step of a connection whose client is told from this place on, if it is. Returns the step, and from where its client is told then.
pub(crate) fn step_at<K, N, L, R, T, W>(
    alloc: Global,
    seat: &mut LiveSeat<'_, N, Lock<K, N, L>, R, T>,
    connection: Connection<Incoming, Outgoing>,
    place: Option<Place>,
    watch: &mut W,
) -> (Step<Incoming, Outgoing>, Option<Place>)
where
    K: Keeper + Drop,
    N: RoomName,
    L: Wait + Drop,
    R: Wait + Clock + Drop,
    T: Terms<N> + Drop,
    W: Waits,
    ensures { ConnectionSteps (LiveReplies N.opening) (LiveTells N.opening) LiveGoesTo TellsSomeHere ⟦<Incoming as Read>⟧.remaining ⟦<Outgoing as Write>⟧.contents result.0 (record seat.old { place = place }) connection (record seat.new { place = result.1 }) }
{
    seat.go_to_place(place);
    let step = connection.step(alloc, seat, watch);
    (step, seat.own_place())
}

// Names the document in the answer to a handshake, and keeps the address that a proxy names that is trusted.
#[derive(Drop)]
struct Naming<'a> {
    alloc: Global,
    document: &'a str,
    trusts_proxy: bool,
    client: &'a Cell<Option<String>>,
}

impl Callback for Naming<'_> {
    fn on_request(
        self,
        request: &Request<()>,
        response: Response<()>,
    ) -> Result<Response<()>, ErrorResponse> {
        if self.trusts_proxy {
            self.client.set(forwarded_by(self.alloc, request.headers()));
        }
        let mut response = response;
        if let Ok(value) = HeaderValue::from_str(self.alloc, self.document) {
            let name = HeaderName::from_static("lugcurrant-document");
            let _ = response.headers_mut().insert(name, value);
        }
        Ok(response)
    }
}
