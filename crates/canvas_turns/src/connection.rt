// A connection, from its handshake to its end.
ghost use Rattle.std.specs.Prelude.{◌≡◌, [], None, Some};
ghost use Rattle.canvas_turns.specs.Lines.{IsFreshLine, IsNextLine};
ghost use Rattle.canvas_turns.specs.Served.{ConnectionSteps, EndSteps};

use crate::serving::{Next, end_of, ping, rest, take_step};
use crate::sides::{Inlet, line_over, next_line};
use crate::{Handler, LineEnd, Waits};
use canvas_sockets::Line;
use net_outbox::{Backlog, Outbox};
use std::alloc::Global;
use std::io::{Read, Write};
use tungstenite::WebSocketConfig;

/// A connection of a server, whose handshake is done. Its steps never block; contracts see its sockets, and how it ends, once it does.
#[derive(Drop)]
pub struct Connection<I: Drop, O: Drop> {
    line: Line<Inlet<I>, Outbox<O>>,
    // How many bytes had left when its sockets were made.
    since: u64,
    config: WebSocketConfig,
    // How it ends, if it takes no turn any more: then what waits still leaves, as far as the peer takes it.
    ending: Option<LineEnd>,
}

/// What a connection does after a step.
#[derive(Drop)]
pub enum Step<I: Drop, O: Drop> {
    /// It goes on: there may be more to do now.
    Goes(Connection<I, O>),
    /// It rests: there is nothing to do until the peer has sent or taken something, something is published, or a time has come.
    Rests(Connection<I, O>),
    /// It has ended so.
    Ends(LineEnd),
}

impl<I: Read + Drop, O: Read + Write + Drop> Connection<I, O> {
    /// Returns a connection that reads from the one stream, and writes into the other. Its messages are bounded by this configuration.
    pub fn new(alloc: Global, input: I, output: O, config: WebSocketConfig) -> Connection<I, O>
        ensures line { IsFreshLine result.line input output }
        ensures open { result.ending ≡ None }
    {
        Connection {
            line: line_over(alloc, input, output, config),
            since: 0,
            config,
            ending: None,
        }
    }

    /// Takes a step: reads messages that have come, at most 64, and none while 256 KiB or more wait to leave. Then the peer takes what it takes
    /// now. Where nothing waits any more, a client that wants to be told unasked is told what is published, and what is whispered, until 256 KiB wait. After a closing
    /// frame, or a message that is too large, nothing is read, and it ends once all has left, or the peer takes too little. Once much has
    /// passed, new sockets go on, so that none keeps what a large message took.
    pub fn step<H: Handler, W: Waits>(
        self,
        alloc: Global,
        handler: &mut H,
        waits: &mut W,
    ) -> Step<I, O>
        ensures { ConnectionSteps H.replies H.tells H.goes_to H.whispers I.remaining O.contents result handler.old self handler.new }
    {
        match self.ending {
            None => self.turn(alloc, handler, waits),
            Some(end) => self.leave(end, waits),
        }
    }

    // Takes a step of a connection that doesn't end.
    fn turn<H: Handler, W: Waits>(self, alloc: Global, handler: &mut H, waits: &mut W) -> Step<I, O>
        requires { self.ending ≡ None }
        ensures { ConnectionSteps H.replies H.tells H.goes_to H.whispers I.remaining O.contents result handler.old self handler.new }
    {
        let mut connection = self;
        match take_step(
            alloc,
            handler,
            &mut connection.line,
            connection.since,
            waits,
        ) {
            Next::Goes => Step::Goes(connection),
            Next::Rests => Step::Rests(connection),
            Next::Renews => Step::Goes(connection.renewed(alloc)),
            Next::Pings => match ping(alloc, &mut connection.line) {
                Ok(()) => Step::Goes(connection),
                Err(error) => Step::Ends(end_of(&error)),
            },
            Next::Leaves(end) => {
                connection.ending = Some(end);
                Step::Goes(connection)
            }
            Next::Ends(end) => Step::Ends(end),
        }
    }

    // Goes on by new sockets.
    fn renewed(self, alloc: Global) -> Connection<I, O>
        requires { self.line.writer.output ≡ [] }
        ensures line { IsNextLine self.line result.line }
        ensures ending { result.ending ≡ self.ending }
    {
        let Connection {
            line,
            since: _,
            config,
            ending,
        } = self;
        let since = line.writer.get_ref().taken();
        Connection {
            line: next_line(alloc, line, config),
            since,
            config,
            ending,
        }
    }

    // Has the peer take some of what waits, and ends once all has left, the stream fails, or the peer takes too little.
    fn leave<W: Waits>(self, end: LineEnd, waits: &mut W) -> Step<I, O>
        requires { self.ending ≡ Some end }
        ensures { EndSteps O.contents end result self.line }
    {
        let mut connection = self;
        let has_left = connection.line.writer.flush();
        if has_left.is_err() || connection.line.writer.get_ref().waiting() == 0 {
            return Step::Ends(end);
        }
        match rest(&connection.line, waits) {
            Next::Ends(_) => Step::Ends(end),
            Next::Rests => Step::Rests(connection),
            _ => Step::Goes(connection),
        }
    }
}
