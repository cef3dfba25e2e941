// All nodes, the server and every message ever sent, and what each event does to them.
ghost use Rattle.std.specs.Prelude.{◌≡◌, IfOk, OnErr};
ghost use Rattle.std.specs.Option.{option_copied, option_map};
ghost use Rattle.canvas_model.specs.World.{Step, empty, node};
ghost use Rattle.canvas_model.specs.Good.{IsGood};
ghost use Rattle.canvas_world.specs.Running.{served_in};
ghost use Rattle.canvas_world.specs.Seen.{seen_answer};

use crate::event::{Answer, Event, EventVariant};
use crate::parts::{Letter, Node, numbered};
use canvas_client::Client;
use canvas_judge::Entry;
use canvas_model::every_run;
use canvas_server::Server;
use std::alloc::{AllocError, Allocator, Global};
use std::marker::Model;

/// All nodes, the server, and every message ever sent. Contracts see it as a world, which is good.
pub struct Network<A: Allocator = Global> {
    pub(crate) server: Server<A>,
    pub(crate) log: Vec<Entry<A>, A>,
    pub(crate) askers: Vec<u64, A>,
    pub(crate) synced: u64,
    pub(crate) letters: Vec<Letter<A>, A>,
    pub(crate) nodes: Vec<Node<A>, A>,
}

impl<A: Allocator> Drop for Network<A> {
    fn drop(self) {
        let Network {
            server: _,
            log: _,
            askers: _,
            synced: _,
            letters: _,
            nodes: _,
        } = self;
    }
}

impl<A: Allocator> Model for Network<A> {
    ghost use Rattle.std.specs.Coded.{codes};
    ghost use Rattle.canvas_model.specs.World as world;
    ghost use Rattle.canvas_model.specs.Codes.{value_code, doc_code};

    ghost Value = { world.World };

    ghost coded = { Prim.hlevel (codes, value_code, doc_code) };

    ghost use Rattle.canvas_world.specs.Running.{ServesGoodWorld};

    ghost view = { λ w. record { log = w.log.items; askers = w.askers.items; floor = w.server.floor; published = w.server.published; synced = w.synced; letters = w.letters.items; nodes = w.nodes.items } };

    ghost invariant = { λ w. ServesGoodWorld w.server (record { log = w.log.items; askers = w.askers.items; floor = w.server.floor; published = w.server.published; synced = w.synced; letters = w.letters.items; nodes = w.nodes.items }) };
}

impl<A: Allocator> Network<A> {
    /// The client of node k, counted from 1.
    pub fn client(&self, k: u64) -> Option<&Client<A>>
        ensures { option_copied result ≡ option_map (λ n. n.client) (node self.now k) }
    {
        let node = numbered(&self.nodes, k)?;
        Some(&node.client)
    }

    /// The server.
    pub fn server(&self) -> &Server<A>
        ensures { result.now ≡ served_in self.now }
    {
        &self.server
    }

    /// How many entries are synced. With it comes what holds of every network: its world is good.
    pub fn synced(&self) -> u64
        ensures synced { result ≡ self.now.synced }
        ensures good { IsGood self.now }
    {
        self.synced
    }
}

impl<A: Allocator + Copy> Network<A> {
    /// The empty network. Errors: out of memory.
    pub fn new(alloc: A) -> Result<Self, AllocError>
        ensures { IfOk result (λ w. w ≡ empty) }
    {
        every_run();
        let server = Server::new(alloc)?;
        Ok(Network {
            server,
            log: Vec::new(alloc),
            askers: Vec::new(alloc),
            synced: 0,
            letters: Vec::new(alloc),
            nodes: Vec::new(alloc),
        })
    }

    /// Plays one event. If memory runs out, nothing has changed.
    pub fn happen(&mut self, event: &Event<A>) -> Result<Answer, AllocError>
        ensures step { IfOk result (λ answer. Step self.old event.now (seen_answer answer) self.new) }
        ensures err { OnErr result (self.new ≡ self.old) }
    {
        match event.variant() {
            EventVariant::AddNode => self.add_node(),
            EventVariant::AskJoin(k) => self.ask_join(*k),
            EventVariant::Edit(k, request) => self.edit(*k, request),
            EventVariant::Send(k, i) => self.send(*k, *i),
            EventVariant::Take(m) => self.take(*m),
            EventVariant::Sync => Ok(self.sync()),
            EventVariant::Publish => Ok(self.publish()),
            EventVariant::Welcome(v) => self.welcome(*v),
            EventVariant::Tell(v, k) => self.tell(*v, *k),
            EventVariant::Copy(k) => self.copy(*k),
            EventVariant::Deliver(m) => self.deliver(*m),
            EventVariant::Checkpoint => Ok(self.checkpoint()),
            EventVariant::Restart(n) => self.restart(*n),
        }
    }
}
