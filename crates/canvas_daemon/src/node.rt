// A client with its link to a server, and what it writes of itself.
ghost use Rattle.std.specs.Prelude.{◌≡◌, ◌+◌, IfErr, IfOk, IsSome, OnErr, OnOk};
ghost use Rattle.std.specs.Io.KnownBytes.{Appends};
ghost use Rattle.canvas_client.specs.Asked.{HasMade, IsRefusal, refusal};
ghost use Rattle.canvas_model.specs.Client.{last_number};
ghost use Rattle.canvas_nodes.specs.GoesOn.{GoesOn};
ghost use Rattle.canvas_daemon.specs.Answered.{HasJoined, WritesBlock, version_and_waiting_line};
ghost use Rattle.canvas_daemon.specs.Faults.{IsMemoryOrDevice};

use crate::fault::DaemonFault;
use canvas_client::{Client, EditError, EditRequest};
use canvas_doc::{Kind, ObjId};
use canvas_edit_lines::write_client;
use canvas_lines::write_out;
use canvas_nodes::{exchange, join};
use canvas_sockets::SocketLink;
use std::alloc::Global;
use std::io::Write;
use std::net::TcpStream;
use std::random::RandomSource;
use tungstenite::handshake::client::{client, request_of};
use tungstenite::{Error, HandshakeError, RandomKeys};

/// The name under which a client shows itself.
const OWN_NAME: &[u8] = b"me";

// The most bytes of a message that a server answers: a copy is as large as the document.
const MOST_ANSWER_BYTES: usize = 1 << 30;

/// A client that has joined, and its link to the server.
#[derive(Drop)]
pub(crate) struct LinkedClient<R: Drop> {
    client: Client,
    link: SocketLink<TcpStream, RandomKeys<R>>,
    ghost joined: { IsSome client.id },
}

// The link over a stream to a server. Device, where the handshake failed; Memory, if memory runs out.
fn shake_hands<R: RandomSource + AllocGlobal + Clone + Drop>(
    rt: &R,
    stream: TcpStream,
) -> Result<SocketLink<TcpStream, RandomKeys<R>>, DaemonFault>
    ensures { IfErr result IsMemoryOrDevice }
{
    let alloc = rt.alloc();
    let keys = rt.clone()?;
    // Each message leaves at once; without this some would wait for an acknowledgement.
    let _ = stream.set_nodelay(true);
    let Ok(request) = request_of(alloc, "ws://127.0.0.1/") else {
        return Err(DaemonFault::Memory);
    };
    match client(alloc, keys, request, stream) {
        Ok((mut socket, _response)) => {
            let config = *socket.get_config();
            let limits = config
                .max_frame_size(Some(MOST_ANSWER_BYTES))
                .max_message_size(Some(MOST_ANSWER_BYTES));
            socket.set_config(limits);
            Ok(SocketLink::new(alloc, socket))
        }
        Err(HandshakeError::Failure(Error::OutOfMemory)) => Err(DaemonFault::Memory),
        Err(_) => Err(DaemonFault::Device),
    }
}

impl<R: RandomSource + AllocGlobal + Clone + Drop> LinkedClient<R> {
    /// A client that joins the server at the other end of a stream.
    ///
    /// The errors: `Device`, where the handshake or the socket failed, or the server answered a No; `Memory`, if memory runs out.
    pub fn joined(rt: &R, stream: TcpStream) -> Result<LinkedClient<R>, DaemonFault>
        ensures joined { IfOk result (λ node. HasJoined node.client) }
        ensures faults { IfErr result IsMemoryOrDevice }
    {
        let alloc = rt.alloc();
        let mut link = shake_hands(rt, stream)?;
        let mut client = Client::new(alloc)?;
        join(&mut client, &mut link)?;
        Ok(LinkedClient { client, link })
    }

    /// The client.
    pub fn client(&self) -> &Client
        ensures { result.now ≡ self.now.client }
    {
        &self.client
    }

    /// Makes an edit, as the client's `edit` does.
    pub fn edit(&mut self, request: &EditRequest) -> Result<u64, EditError>
        ensures ok { OnOk result (HasMade self.old.client request.now self.new.client) }
        ensures number { IfOk result (λ n. n ≡ last_number self.old.client + 1) }
        ensures refused { IfErr result (λ error. IsRefusal self.old.client request.now (refusal error)) }
        ensures err { OnErr result (self.new.client ≡ self.old.client) }
    {
        self.client.edit(request)
    }

    /// Creates an object, as the client's `create` does. Answers its id.
    pub fn create(
        &mut self,
        kind: Kind,
        parent: ObjId,
        after: Option<ObjId>,
    ) -> Result<ObjId, EditError> {
        let (_edit, id) = self.client.create(kind, parent, after)?;
        Ok(id)
    }

    /// Sends what waits, and asks for what is new.
    ///
    /// The errors: `Device`, where the socket failed or the server answered a No; `Memory`, if memory runs out.
    pub fn exchange(&mut self, alloc: Global) -> Result<(), DaemonFault>
        ensures goes_on { GoesOn self.old.client self.new.client }
        ensures faults { IfErr result IsMemoryOrDevice }
    {
        exchange(alloc, &mut self.client, &mut self.link)?;
        Ok(())
    }

    /// Exchanges, and then writes `version B waiting W`.
    pub fn exchange_and_tell<W: Write>(
        &mut self,
        alloc: Global,
        output: &mut W,
    ) -> Result<(), DaemonFault>
        ensures goes_on { GoesOn self.old.client self.new.client }
        ensures told { OnOk result
            (Appends (W.contents output.old) (W.contents output.new) (version_and_waiting_line self.new.client)) }
        ensures unwritten { IfErr result (λ fault. (fault ≡ DaemonFault.Device → ⊥) → W.contents output.new ≡ W.contents output.old) }
        ensures faults { IfErr result IsMemoryOrDevice }
    {
        self.exchange(alloc)?;
        self.tell(alloc, output)
    }

    /// Writes `version B waiting W`.
    pub fn tell<W: Write>(&self, alloc: Global, output: &mut W) -> Result<(), DaemonFault>
        ensures told { OnOk result
            (Appends (W.contents output.old) (W.contents output.new) (version_and_waiting_line self.now.client)) }
        ensures unwritten { IfErr result (λ fault. (fault ≡ DaemonFault.Device → ⊥) → W.contents output.new ≡ W.contents output.old) }
        ensures faults { IfErr result IsMemoryOrDevice }
    {
        let version = self.client.version();
        let waiting = self.client.unacknowledged();
        let line = format!(in alloc; "version {version} waiting {waiting}\n")?;
        write_out(output, line.as_bytes())?;
        Ok(())
    }

    /// Writes the client's block.
    pub fn show<W: Write>(&self, alloc: Global, output: &mut W) -> Result<(), DaemonFault>
        ensures shown { OnOk result
            (WritesBlock self.now.client (W.contents output.old) (W.contents output.new)) }
        ensures unwritten { IfErr result (λ fault. (fault ≡ DaemonFault.Device → ⊥) → W.contents output.new ≡ W.contents output.old) }
        ensures faults { IfErr result IsMemoryOrDevice }
    {
        let mut block = Vec::new(alloc);
        write_client(alloc, OWN_NAME, &self.client, &mut block)?;
        write_out(output, &block)?;
        Ok(())
    }
}
