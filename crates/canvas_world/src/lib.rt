//! All nodes, the server and every message ever sent: what each event does to them, events played in order, and what holds after every list of
//! them.
#![tactic(auto)]

ghost use Rattle.std.specs.Prelude.{◌≡◌, ◌≤◌, ◌↔◌, ◌++◌, length, take, None, List, IfOk, OnErr};
ghost use Rattle.std.specs.Option.{option_copied, option_map};
ghost use Rattle.canvas_model.specs.World.{Run, Step, empty, node};
ghost use Rattle.canvas_model.specs.World as world;
ghost use Rattle.canvas_model.specs.Good.{CountsAcknowledged, HasClaims, HasLegalLog, HasNoStranger, IsGood, LogsEdits, SharesNoId, ShowsOverlays, TellsTruth, TracksObjects};
ghost use Rattle.canvas_model.specs.Laws.{HasNoCycle, KeepsAcknowledged, NodesAgree};
ghost use Rattle.canvas_world.specs.Running.{served_in};
ghost use Rattle.canvas_world.specs.Seen.{seen_answer};
ghost use Rattle.canvas_world.specs.Synced.{KeepsAllSynced, KeepsSynced};
ghost use Rattle.canvas_world.specs.Trees.{NodesShowOneTree};

use canvas_client::Client;
use canvas_model::{every_good_world, every_run, every_step};
use canvas_server::Server;
use canvas_tree::one_tree;
use std::alloc::{AllocError, Allocator, Global};
use std::marker::Model;

mod changing;
mod event;
mod network;
mod parts;
mod posting;

pub use event::{Answer, Event, EventVariant};
use network::Network;

/// All nodes, the server, and every message ever sent. Every world is good.
pub struct World<A: Allocator = Global> {
    network: Network<A>,
}

impl<A: Allocator> Drop for World<A> {
    fn drop(self) {
        let World { network: _ } = self;
    }
}

impl<A: Allocator> Model for World<A> {
    ghost use Rattle.std.specs.Coded.{codes};
    ghost use Rattle.canvas_model.specs.World as world;
    ghost use Rattle.canvas_model.specs.Codes.{value_code, doc_code};

    ghost Value = { world.World };

    ghost coded = { Prim.hlevel (codes, value_code, doc_code) };

    ghost view = { λ w. w.network };
}

/// A world that events were played in: how many, and what stopped it before the rest.
#[derive(Drop)]
pub struct Played<A: Allocator = Global> {
    /// The world after the events that were played.
    pub world: World<A>,
    /// How many events were played.
    pub done: u64,
    /// The refusal of memory that stopped it, if one did.
    pub stopped: Option<AllocError>,
}

impl<A: Allocator> World<A> {
    /// The client of node k, counted from 1.
    pub fn client(&self, k: u64) -> Option<&Client<A>>
        ensures { option_copied result ≡ option_map (λ n. n.client) (node self.now k) }
    {
        self.network.client(k)
    }

    /// The server.
    pub fn server(&self) -> &Server<A>
        ensures { result.now ≡ served_in self.now }
    {
        self.network.server()
    }

    /// How many entries are synced.
    pub fn synced(&self) -> u64
        ensures { result ≡ self.now.synced }
    {
        self.network.synced()
    }
}

impl<A: Allocator + Copy> World<A> {
    /// The empty world. Errors: out of memory.
    pub fn new(alloc: A) -> Result<Self, AllocError>
        ensures { IfOk result (λ w. w ≡ empty) }
    {
        let network = Network::new(alloc)?;
        Ok(World { network })
    }

    /// Plays one event. If memory runs out, nothing has changed.
    pub fn step(&mut self, event: &Event<A>) -> Result<Answer, AllocError>
        ensures step { IfOk result (λ answer. Step self.old event.now (seen_answer answer) self.new) }
        ensures err { OnErr result (self.new ≡ self.old) }
        ensures good { IsGood self.new }
        ensures legal { HasLegalLog self.new }
        ensures truth { TellsTruth self.new }
        ensures ids { SharesNoId self.new }
        ensures entries { LogsEdits self.new }
        ensures authors { HasNoStranger self.new }
        ensures acknowledged { CountsAcknowledged self.new }
        ensures views { ShowsOverlays self.new }
        ensures objects { TracksObjects self.new }
        ensures synced { KeepsSynced self.old self.new }
    {
        every_step();
        self.every_world();
        let answer = self.network.happen(event);
        self.every_world();
        answer
    }

    // What holds of every world, as every world is good. It does nothing when it runs.
    fn every_world(&self)
        ensures good { IsGood self.now }
        ensures claims { HasClaims self.now }
        ensures agree { NodesAgree self.now }
        ensures trees { NodesShowOneTree self.now }
        ensures no_cycle { HasNoCycle self.now }
        ensures kept { KeepsAcknowledged self.now }
    {
        every_good_world();
        one_tree();
        // With the count comes what holds of every network.
        let _ = self.network.synced();
    }

    /// Plays events in order until all are played or one is refused memory: how many were played, and the refusal.
    pub fn advance(&mut self, events: &[Event<A>]) -> (u64, Option<AllocError>)
        ensures run { Run self.old (take result.0 events.now) self.new }
        ensures from_empty { (before : List world.Event) → Run empty before self.old → Run empty (before ++ take result.0 events.now) self.new }
        ensures good { IsGood self.new }
        ensures claims { HasClaims self.new }
        ensures shows { ShowsOverlays self.new }
        ensures agree { NodesAgree self.new }
        ensures trees { NodesShowOneTree self.new }
        ensures no_cycle { HasNoCycle self.new }
        ensures kept { KeepsAcknowledged self.new }
        ensures synced { KeepsSynced self.old self.new }
        ensures stopped { (result.1 ≡ None) ↔ (result.0 ≡ length events.now) }
        ensures within { result.0 ≤ length events.now }
    {
        every_step();
        self.every_world();
        let played = self.advance_each(events);
        self.every_world();
        played
    }

    // Plays events in order until all are played or one is refused memory.
    fn advance_each(&mut self, events: &[Event<A>]) -> (u64, Option<AllocError>)
        ensures run { Run self.old (take result.0 events.now) self.new }
        ensures from_empty { (before : List world.Event) → Run empty before self.old → Run empty (before ++ take result.0 events.now) self.new }
        ensures stopped { (result.1 ≡ None) ↔ (result.0 ≡ length events.now) }
        ensures within { result.0 ≤ length events.now }
    {
        let mut done = 0;
        for event in events {
            if let Err(error) = self.step(event) {
                return (done, Some(error));
            }
            done += 1;
        }
        (done, None)
    }

    /// Plays events in order from the empty world, until all are played or one is refused memory. Fails only if the empty world
    /// is refused memory.
    pub fn play(alloc: A, events: &[Event<A>]) -> Result<Played<A>, AllocError>
        ensures run { IfOk result (λ p. Run empty (take p.done events.now) p.world) }
        ensures good { IfOk result (λ p. IsGood p.world) }
        ensures claims { IfOk result (λ p. HasClaims p.world) }
        ensures shows { IfOk result (λ p. ShowsOverlays p.world) }
        ensures agree { IfOk result (λ p. NodesAgree p.world) }
        ensures trees { IfOk result (λ p. NodesShowOneTree p.world) }
        ensures no_cycle { IfOk result (λ p. HasNoCycle p.world) }
        ensures kept { IfOk result (λ p. KeepsAcknowledged p.world) }
        ensures synced { IfOk result (λ p. KeepsAllSynced p.world) }
        ensures stopped { IfOk result (λ p. (p.stopped ≡ None) ↔ (p.done ≡ length events.now)) }
        ensures within { IfOk result (λ p. p.done ≤ length events.now) }
    {
        every_run();
        every_step();
        let mut world = World::new(alloc)?;
        let (done, stopped) = world.advance(events);
        Ok(Played {
            world,
            done,
            stopped,
        })
    }
}
