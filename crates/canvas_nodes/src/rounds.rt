// What a client asks over a link.
ghost use Rattle.std.specs.Prelude.{◌<◌, ◌≤◌, IfErr, IsSome, IsNone, OnOk, length, map};
ghost use Rattle.canvas_judge.specs.Seen.{seen_message};
ghost use Rattle.canvas_nodes.specs.GoesOn.{GoesOn};
ghost use Rattle.canvas_nodes.specs.Hears.{Breaks, BreaksAtEdit, BreaksAtNews, BreaksCatching, BreaksAtJoin, BreaksOff, BreaksSending, CatchesUp, Exchanges, Hears, HearsEach, HearsNews, HearsOfEdit, HearsOfJoin, HearsSome, SendsAll};

use crate::{Link, LinkError};
use canvas_client::Client;
use canvas_judge::Message;
use std::alloc::Global;

/// Asks for an id, for a client that has none, and gives the client the answer.
///
/// Answers NotRead where the answer gave no id, Memory if memory runs out, and otherwise what the link answered. The client
/// has then received the messages that came before.
pub fn join<L: Link>(client: &mut Client, link: &mut L) -> Result<(), LinkError>
    requires { IsNone client.old.id }
    ensures hears { OnOk result (HearsOfJoin L.gives L.fails client.old link.old client.new link.new) }
    ensures breaks { IfErr result (λ e. BreaksAtJoin L.gives L.fails e client.old link.old client.new link.new) }
    ensures goes_on { GoesOn client.old client.new }
    ensures id { OnOk result (IsSome client.new.id) }
{
    ask(client, link, Client::join_message())?;
    match client.id() {
        Some(_) => Ok(()),
        None => Err(LinkError::NotRead),
    }
}

/// Sends all edits that wait, in their order, and then asks for what came after the client's version, until an answer has nothing that
/// the client takes. The client receives each message of each answer.
///
/// The first error ends it: Memory if memory runs out, and otherwise what the link answered. The client has then received the
/// messages that came before. What was sent and not acknowledged waits still, so that the next call sends it again.
pub fn exchange<L: Link>(alloc: Global, client: &mut Client, link: &mut L) -> Result<(), LinkError>
    requires { IsSome client.old.id }
    ensures hears { OnOk result (Exchanges L.gives L.fails client.old link.old client.new link.new) }
    ensures breaks { IfErr result (λ e. BreaksOff L.gives L.fails e client.old link.old client.new link.new) }
    ensures goes_on { GoesOn client.old client.new }
{
    send_edits(alloc, client, link)?;
    catch_up(client, link)
}

// Sends the edits that wait, in their order, but not those that are judged meanwhile.
fn send_edits<L: Link>(alloc: Global, client: &mut Client, link: &mut L) -> Result<(), LinkError>
    ensures hears { OnOk result (SendsAll L.gives L.fails client.old link.old client.new link.new) }
    ensures breaks { IfErr result (λ e. BreaksSending L.gives L.fails e client.old link.old client.new link.new) }
    ensures goes_on { GoesOn client.old client.new }
{
    // The view is lent, as with it comes what holds of every client: the number of its last edit is at most 2^62.
    let _ = client.view();
    let first = client.acknowledged();
    let last = first + client.unacknowledged();
    for before in first..last {
        if client.acknowledged() <= before {
            let i = before - client.acknowledged() + 1;
            send_edit(alloc, client, link, i)?;
        }
    }
    Ok(())
}

// Sends the i-th of the edits that wait, counted from 1.
fn send_edit<L: Link>(
    alloc: Global,
    client: &mut Client,
    link: &mut L,
    i: u64,
) -> Result<(), LinkError>
    requires least { 0 < i }
    requires most { i ≤ length client.old.waiting }
    ensures hears { OnOk result (HearsOfEdit L.gives L.fails i client.old link.old client.new link.new) }
    ensures breaks { IfErr result (λ e. BreaksAtEdit L.gives L.fails i e client.old link.old client.new link.new) }
    ensures goes_on { GoesOn client.old client.new }
{
    let edit = client.message(alloc, i)?;
    ask(client, link, edit)
}

// Asks for what came after the client's version, until its version stays.
fn catch_up<L: Link>(client: &mut Client, link: &mut L) -> Result<(), LinkError>
    requires { IsSome client.old.id }
    ensures hears { OnOk result (CatchesUp L.gives L.fails client.old link.old client.new link.new) }
    ensures breaks { IfErr result (λ e. BreaksCatching L.gives L.fails e client.old link.old client.new link.new) }
    ensures goes_on { GoesOn client.old client.new }
{
    'asks: loop {
        let version = client.version();
        ask_next(client, link)?;
        if client.version() <= version {
            return Ok(());
        }
    }
}

// Asks for what came after the client's version, once.
fn ask_next<L: Link>(client: &mut Client, link: &mut L) -> Result<(), LinkError>
    requires { IsSome client.old.id }
    ensures hears { OnOk result (HearsNews L.gives L.fails client.old link.old client.new link.new) }
    ensures breaks { IfErr result (λ e. BreaksAtNews L.gives L.fails e client.old link.old client.new link.new) }
    ensures goes_on { GoesOn client.old client.new }
{
    match client.ask_message() {
        Some(message) => ask(client, link, message),
        None => Ok(()),
    }
}

// Sends a message, and gives the client the answer.
fn ask<L: Link>(client: &mut Client, link: &mut L, message: Message) -> Result<(), LinkError>
    ensures hears { OnOk result (Hears L.gives L.fails (seen_message message) client.old link.old client.new link.new) }
    ensures breaks { IfErr result (λ e. Breaks L.gives L.fails (seen_message message) e client.old link.old client.new link.new) }
    ensures goes_on { GoesOn client.old client.new }
{
    let answer = link.round(message)?;
    give(client, &answer)
}

// Gives the client these messages, in their order.
fn give(client: &mut Client, messages: &[Message]) -> Result<(), LinkError>
    ensures hears { OnOk result (HearsEach client.old (map seen_message messages.now) client.new) }
    ensures breaks { IfErr result (λ e. HearsSome client.old (map seen_message messages.now) e client.new) }
    ensures goes_on { GoesOn client.old client.new }
{
    for message in messages {
        client.receive(message)?;
    }
    Ok(())
}
