// A client on a thread of its own, which is told what to do.
ghost use Rattle.std.specs.Prelude.{◌≡◌, IfErr, IfOk, IsSome, Some};
ghost use Rattle.crossbeam_channel.specs.Err.{send_message};

use canvas_client::{Client, EditRequest};
use canvas_nodes::{Link, LinkError, exchange};
use crossbeam_channel::{Receiver, SendError, Sender, unbounded};
use std::alloc::{AllocFailed, Global};
use std::marker::Model;
use std::sync::Wait;
use std::thread::{Promise, PromisedHandle, Threads, spawn_with};

/// What a client on a thread of its own is told.
#[derive(Drop)]
pub enum Command {
    /// To make an edit. One that the client refuses changes nothing.
    Edit(EditRequest),
    /// To send what waits, and to receive what came after its version.
    Exchange,
    /// To end.
    Stop,
}

// A client whose thread has ended, and whether an exchange failed.
#[derive(Drop)]
struct Ended {
    client: Client,
    result: Result<(), LinkError>,
}

// That a client has this id when its thread ends.
#[derive(Clone, Copy)]
struct KeepsId {
    id: u32,
}

impl Promise<Ended> for KeepsId {
    ghost use Rattle.std.specs.Prelude.{◌≡◌, Some};

    ghost kept_by = { λ promise ended. ended.client.id ≡ Some promise.id };
}

/// A client on a thread of its own, with the inbox by which it is told what to do. Contracts see it as the client's id.
///
/// It does what it is told in order, one after the other. It ends where it is told to stop, where nobody is left who could tell it
/// anything, and if an exchange fails.
pub struct ClientNode {
    commands: Sender<Command>,
    thread: PromisedHandle<Ended, KeepsId>,
}

impl Drop for ClientNode {
    fn drop(self) {
        let ClientNode {
            commands: _,
            thread: _,
        } = self;
    }
}

impl Model for ClientNode {
    ghost use Rattle.std.specs.Prelude.{ℕ};

    ghost Value = { ℕ };

    ghost view = { λ n. n.thread.promise.id };
}

impl ClientNode {
    /// Starts a thread for a client that has an id, which exchanges over this link. Fails if memory runs out or no thread can be
    /// made, and then the client comes back.
    pub fn start<L, R>(rt: &R, client: Client, link: L) -> Result<ClientNode, AllocFailed<Client>>
    where
        L: Link + Send + Drop + 'static,
        R: Threads + Wait + AllocGlobal + Clone + Send + Drop + 'static,
        requires { IsSome client.id }
        ensures started { IfOk result (λ node. client.id ≡ Some node) }
        ensures back { IfErr result (λ failed. failed.value.id ≡ client.id) }
    {
        let Some(id) = client.id() else {
            unreachable!()
        };
        let alloc = rt.alloc();
        let Ok(own) = rt.clone() else {
            return Err(AllocFailed { value: client });
        };
        let Ok((commands, inbox)) = unbounded(alloc) else {
            return Err(AllocFailed { value: client });
        };
        let task = Work {
            alloc,
            rt: own,
            client,
            link,
            inbox,
        };
        match start_task(rt, id, commands, task) {
            Ok(node) => Ok(node),
            Err(client) => Err(AllocFailed { value: client }),
        }
    }

    /// Tells the client what to do next. Fails where its thread has ended, or memory runs out, and then the command comes back.
    pub fn send<W: Wait>(&self, rt: &W, command: Command) -> Result<(), SendError<Command>>
        ensures { IfErr result (λ error. send_message error ≡ command) }
    {
        self.commands.send(rt, command)
    }

    /// Lets the inbox go, so that the thread ends once it has done what it was told, waits for that, and answers the client. If an
    /// exchange failed, answers with its error, and the client is let go.
    pub fn join<R: Threads>(self, rt: &R) -> Result<Client, LinkError>
        ensures { IfOk result (λ client. client.id ≡ Some self) }
    {
        let ClientNode { commands, thread } = self;
        drop(commands);
        let Ended { client, result } = thread.join(rt);
        result?;
        Ok(client)
    }
}

// What a client's thread is given to do.
trait Task: Drop {
    ghost use Rattle.std.specs.Prelude.{ℕ, Option};

    ghost id: { Self → Option ℕ };

    // Does it to its end.
    fn run(self) -> Ended
        requires { IsSome (id self) }
        ensures { result.client.id ≡ id self };
}

// A client with its link and its inbox.
#[derive(Drop)]
struct Work<L: Drop, R: Drop> {
    alloc: Global,
    rt: R,
    client: Client,
    link: L,
    inbox: Receiver<Command>,
}

impl<L: Link + Drop, R: Wait + Drop> Task for Work<L, R> {
    ghost id = { λ work. work.client.id };

    fn run(self) -> Ended {
        let Work {
            alloc,
            rt,
            mut client,
            mut link,
            inbox,
        } = self;
        let result = obey_all(alloc, &rt, &mut client, &mut link, &inbox);
        Ended { client, result }
    }
}

// Starts a thread that does a task. If none can be made, the task is done here, with nobody left who could tell it anything, and the
// client comes back.
fn start_task<T: Task + Send + Drop + 'static, R: Threads>(
    rt: &R,
    id: u32,
    commands: Sender<Command>,
    task: T,
) -> Result<ClientNode, Client>
    requires { T.id task ≡ Some id }
    ensures started { IfOk result (λ node. node ≡ id) }
    ensures back { IfErr result (λ client. client.id ≡ Some id) }
{
    let run = move || -> Ended
        requires { IsSome (T.id task) }
        ensures { result.client.id ≡ T.id task }
    { task.run() };
    match spawn_with(rt, KeepsId { id }, run) {
        Ok(thread) => Ok(ClientNode { commands, thread }),
        Err(refused) => {
            drop(commands);
            let ended = (refused.value)();
            Err(ended.client)
        }
    }
}

// Does what it is told, until it is told to stop or nobody is left who could tell it anything.
fn obey_all<L: Link, W: Wait>(
    alloc: Global,
    rt: &W,
    client: &mut Client,
    link: &mut L,
    inbox: &Receiver<Command>,
) -> Result<(), LinkError>
    requires { IsSome client.old.id }
    ensures { client.new.id ≡ client.old.id }
{
    for command in inbox.iter(rt) {
        if !obey(alloc, client, link, command)? {
            return Ok(());
        }
    }
    Ok(())
}

// Does what it is told, and tells whether it goes on.
fn obey<L: Link>(
    alloc: Global,
    client: &mut Client,
    link: &mut L,
    command: Command,
) -> Result<bool, LinkError>
    requires { IsSome client.old.id }
    ensures { client.new.id ≡ client.old.id }
{
    match command {
        Command::Edit(request) => {
            // One that is refused has changed nothing.
            let _ = client.edit(&request);
            Ok(true)
        }
        Command::Exchange => {
            exchange(alloc, client, link)?;
            Ok(true)
        }
        Command::Stop => Ok(false),
    }
}
