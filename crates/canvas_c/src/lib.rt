//! The client for programs in C and in whatever calls C: a handle that they hold, and a call for each thing that it does.
//!
//! `packages/c/include/lugcurrant.h` declares these calls, and says what each number means. No call can be made to fail: whatever the
//! handle's mark, the bytes and the numbers are, it answers, and its contract says what then holds.
#![tactic(auto)]

ghost use Rattle.std.specs.Prelude.{◌≡◌, IfErr, IfOk, length};
ghost use Rattle.std.specs.Option.{unwrap_or};
ghost use Rattle.canvas_model.specs.Client as client;
ghost use Rattle.canvas_client.specs.Ends.{LiesFirst, LiesLast};
ghost use Rattle.canvas_client.specs.Kept.{IsKept};
ghost use Rattle.canvas_embed.specs.Saves.{IsLoadError, SpellsClient};
ghost use Rattle.canvas_embed.specs.declared.fault.LoadError.TheVariants as load;
ghost use Rattle.canvas_c.specs.Answers.{AskAnswer, ChildrenAnswer, ClearAnswer, CreateAnswer, CreateAtAnswer, CreateThereAnswer, DeleteAnswer, FreeAnswer, InTreeAnswer, IsLoaded, IsNewSession, JoinAnswer, LoadAnswer, MoveAnswer, MoveAtAnswer, MoveThereAnswer, NewAnswer, ObjectAnswer, ReadAnswer, ReceiveAnswer, ResumeAnswer, SaveAnswer, SetAnswer, TellAnswer, TreeAnswer, WaitingAnswer};
ghost use Rattle.canvas_c.specs.Held.{OnHeld, OnHeldMaking};
ghost use Rattle.canvas_c.specs.Ids.{object, target_of};
ghost use Rattle.canvas_c.specs.Numbers.{no_client};

mod handle;
mod ids;
mod kept;
mod numbers;
mod parked;
mod session;

use canvas_doc::ObjId;
use canvas_embed::LoadError;
use handle::Handle;
use ids::{ObjectId, after_of};
use numbers::{DONE, HELD, MEMORY, NO_CLIENT, load_number};
use session::Session;
use std::alloc::{AllocError, Global};

/// Makes a client without an id, which shows the root alone.
#[unsafe(no_mangle)]
pub extern "C" fn lugcurrant_new(handle: &mut Handle, alloc: Global) -> u32
    ensures { NewAnswer result handle.old.kept.session handle.new.kept.session }
{
    if !handle.is_empty() {
        return HELD;
    }
    match boxed(alloc) {
        Ok(session) => {
            handle.put(session);
            DONE
        }
        Err(_) => MEMORY,
    }
}

// A new session in a box.
fn boxed(alloc: Global) -> Result<Box<Session>, AllocError>
    ensures { IfOk result (λ session. IsNewSession session.value) }
{
    let session = Session::new(alloc)?;
    match Box::new(alloc, session) {
        Ok(held) => Ok(held),
        Err(_) => Err(AllocError),
    }
}

/// Makes the client of which the bytes are the text.
#[unsafe(no_mangle)]
pub extern "C" fn lugcurrant_load(handle: &mut Handle, alloc: Global, bytes: &[u8]) -> u32
    ensures { LoadAnswer bytes.now result handle.old.kept.session handle.new.kept.session }
{
    if !handle.is_empty() {
        return HELD;
    }
    match loaded(alloc, bytes) {
        Ok(session) => {
            handle.put(session);
            DONE
        }
        Err(error) => load_number(error),
    }
}

// The session of the client of which the bytes are the text, in a box.
fn loaded(alloc: Global, bytes: &[u8]) -> Result<Box<Session>, LoadError>
    ensures ok { IfOk result (λ session. IsLoaded bytes.now session.value) }
    ensures only { (client : client.Client) → SpellsClient bytes.now client → IfOk result (λ session. session.value.client ≡ client) }
    ensures only_memory { (client : client.Client) → SpellsClient bytes.now client → IsKept client → IfErr result (λ error. error ≡ load.Memory) }
    ensures fault { IfErr result (IsLoadError bytes.now) }
{
    let session = match Session::load(alloc, bytes) {
        Ok(session) => session,
        Err(error) => return Err(error),
    };
    match Box::new(alloc, session) {
        Ok(held) => Ok(held),
        Err(_) => Err(LoadError::Memory),
    }
}

/// Ends the client, with all that waits.
#[unsafe(no_mangle)]
pub extern "C" fn lugcurrant_free(handle: &mut Handle, alloc: Global) -> u32
    ensures { FreeAnswer result handle.old.kept.session handle.new.kept.session }
{
    match handle.take(alloc) {
        Some(session) => {
            drop(session);
            DONE
        }
        None => NO_CLIENT,
    }
}

/// The client's id, or 0 while it has none or there is no client.
#[unsafe(no_mangle)]
pub extern "C" fn lugcurrant_id(handle: &mut Handle, alloc: Global) -> u32
    ensures { OnHeld (λ old new. (new ≡ old) × (result ≡ unwrap_or old.client.id 0)) (result ≡ 0) handle.old.kept.session handle.new.kept.session }
{
    let Some(session) = handle.take(alloc) else {
        return 0;
    };
    let answer = session.client.id().unwrap_or(0);
    handle.put(session);
    answer
}

/// The version that it has reached; 0 where there is no client.
#[unsafe(no_mangle)]
pub extern "C" fn lugcurrant_version(handle: &mut Handle, alloc: Global) -> u64
    ensures { OnHeld (λ old new. (new ≡ old) × (result ≡ old.client.version)) (result ≡ 0) handle.old.kept.session handle.new.kept.session }
{
    let Some(session) = handle.take(alloc) else {
        return 0;
    };
    let answer = session.client.version();
    handle.put(session);
    answer
}

/// The number of its last edit of which it has taken the entry; 0 where there is no client.
#[unsafe(no_mangle)]
pub extern "C" fn lugcurrant_acknowledged(handle: &mut Handle, alloc: Global) -> u64
    ensures { OnHeld (λ old new. (new ≡ old) × (result ≡ old.client.acknowledged)) (result ≡ 0) handle.old.kept.session handle.new.kept.session }
{
    let Some(session) = handle.take(alloc) else {
        return 0;
    };
    let answer = session.client.acknowledged();
    handle.put(session);
    answer
}

/// How many of its edits wait; 0 where there is no client.
#[unsafe(no_mangle)]
pub extern "C" fn lugcurrant_waiting(handle: &mut Handle, alloc: Global) -> u64
    ensures { OnHeld (λ old new. (new ≡ old) × (result ≡ length old.client.waiting)) (result ≡ 0) handle.old.kept.session handle.new.kept.session }
{
    let Some(session) = handle.take(alloc) else {
        return 0;
    };
    let answer = session.client.unacknowledged();
    handle.put(session);
    answer
}

/// Receives one message.
#[unsafe(no_mangle)]
pub extern "C" fn lugcurrant_receive(handle: &mut Handle, alloc: Global, bytes: &[u8]) -> u32
    ensures { OnHeld (ReceiveAnswer bytes.now result) (result ≡ no_client) handle.old.kept.session handle.new.kept.session }
{
    let Some(mut session) = handle.take(alloc) else {
        return NO_CLIENT;
    };
    let answer = session.receive(alloc, bytes);
    handle.put(session);
    answer
}

/// Receives one message, and leaves which objects of the view may have changed.
#[unsafe(no_mangle)]
pub extern "C" fn lugcurrant_receive_and_tell(
    handle: &mut Handle,
    alloc: Global,
    bytes: &[u8],
) -> u32
    ensures { OnHeld (TellAnswer bytes.now result) (result ≡ no_client) handle.old.kept.session handle.new.kept.session }
{
    let Some(mut session) = handle.take(alloc) else {
        return NO_CLIENT;
    };
    let answer = session.receive_and_tell(alloc, bytes);
    handle.put(session);
    answer
}

/// Makes an edit again by the bytes of its message, as `lugcurrant_edit` has left them.
#[unsafe(no_mangle)]
pub extern "C" fn lugcurrant_resume(handle: &mut Handle, alloc: Global, bytes: &[u8]) -> u32
    ensures { OnHeld (ResumeAnswer bytes.now result) (result ≡ no_client) handle.old.kept.session handle.new.kept.session }
{
    let Some(mut session) = handle.take(alloc) else {
        return NO_CLIENT;
    };
    let answer = session.resume(alloc, bytes);
    handle.put(session);
    answer
}

/// Creates an object of the kind of this number under the parent, after a child of it, or first where that is 0:0.
#[unsafe(no_mangle)]
pub extern "C" fn lugcurrant_create(
    handle: &mut Handle,
    alloc: Global,
    kind: u32,
    parent_client: u32,
    parent_counter: u32,
    after_client: u32,
    after_counter: u32,
    made: &mut ObjectId,
) -> u32
    ensures { OnHeldMaking (CreateAnswer kind (target_of parent_client parent_counter after_client after_counter) made.old made.new result) result made.old made.new handle.old.kept.session handle.new.kept.session }
{
    let Some(mut session) = handle.take(alloc) else {
        return NO_CLIENT;
    };
    let parent = ObjId {
        client: parent_client,
        counter: parent_counter,
    };
    let answer = session.create(kind, parent, after_of(after_client, after_counter), made);
    handle.put(session);
    answer
}

/// Creates an object of the kind of this number under the parent, at the position of these bytes.
#[unsafe(no_mangle)]
pub extern "C" fn lugcurrant_create_at(
    handle: &mut Handle,
    alloc: Global,
    kind: u32,
    parent_client: u32,
    parent_counter: u32,
    position: &[u8],
    made: &mut ObjectId,
) -> u32
    ensures { OnHeldMaking (CreateAtAnswer kind (object parent_client parent_counter) position.now made.old made.new result) result made.old made.new handle.old.kept.session handle.new.kept.session }
{
    let Some(mut session) = handle.take(alloc) else {
        return NO_CLIENT;
    };
    let parent = ObjId {
        client: parent_client,
        counter: parent_counter,
    };
    let answer = session.create_at(alloc, kind, parent, position, made);
    handle.put(session);
    answer
}

/// Creates an object of the kind of this number under the parent, behind all its children.
#[unsafe(no_mangle)]
pub extern "C" fn lugcurrant_create_last(
    handle: &mut Handle,
    alloc: Global,
    kind: u32,
    parent_client: u32,
    parent_counter: u32,
    made: &mut ObjectId,
) -> u32
    ensures { OnHeldMaking (CreateThereAnswer LiesLast kind (object parent_client parent_counter) made.old made.new result) result made.old made.new handle.old.kept.session handle.new.kept.session }
{
    let Some(mut session) = handle.take(alloc) else {
        return NO_CLIENT;
    };
    let parent = ObjId {
        client: parent_client,
        counter: parent_counter,
    };
    let answer = session.create_last(kind, parent, made);
    handle.put(session);
    answer
}

/// Creates an object of the kind of this number under the parent, before all its children.
#[unsafe(no_mangle)]
pub extern "C" fn lugcurrant_create_first(
    handle: &mut Handle,
    alloc: Global,
    kind: u32,
    parent_client: u32,
    parent_counter: u32,
    made: &mut ObjectId,
) -> u32
    ensures { OnHeldMaking (CreateThereAnswer LiesFirst kind (object parent_client parent_counter) made.old made.new result) result made.old made.new handle.old.kept.session handle.new.kept.session }
{
    let Some(mut session) = handle.take(alloc) else {
        return NO_CLIENT;
    };
    let parent = ObjId {
        client: parent_client,
        counter: parent_counter,
    };
    let answer = session.create_first(kind, parent, made);
    handle.put(session);
    answer
}

/// Gives a property of the object the value of which the bytes are the JSON.
#[unsafe(no_mangle)]
pub extern "C" fn lugcurrant_set(
    handle: &mut Handle,
    alloc: Global,
    client: u32,
    counter: u32,
    name: &[u8],
    json: &[u8],
) -> u32
    ensures { OnHeld (SetAnswer (object client counter) name.now json.now result) (result ≡ no_client) handle.old.kept.session handle.new.kept.session }
{
    let Some(mut session) = handle.take(alloc) else {
        return NO_CLIENT;
    };
    let id = ObjId { client, counter };
    let answer = session.set(alloc, id, name, json);
    handle.put(session);
    answer
}

/// Takes a property of the object away.
#[unsafe(no_mangle)]
pub extern "C" fn lugcurrant_clear(
    handle: &mut Handle,
    alloc: Global,
    client: u32,
    counter: u32,
    name: &[u8],
) -> u32
    ensures { OnHeld (ClearAnswer (object client counter) name.now result) (result ≡ no_client) handle.old.kept.session handle.new.kept.session }
{
    let Some(mut session) = handle.take(alloc) else {
        return NO_CLIENT;
    };
    let id = ObjId { client, counter };
    let answer = session.clear(alloc, id, name);
    handle.put(session);
    answer
}

/// Moves the object under the parent, after a child of it, or first where that is 0:0.
#[unsafe(no_mangle)]
pub extern "C" fn lugcurrant_move(
    handle: &mut Handle,
    alloc: Global,
    client: u32,
    counter: u32,
    parent_client: u32,
    parent_counter: u32,
    after_client: u32,
    after_counter: u32,
) -> u32
    ensures { OnHeld (MoveAnswer (object client counter) (target_of parent_client parent_counter after_client after_counter) result) (result ≡ no_client) handle.old.kept.session handle.new.kept.session }
{
    let Some(mut session) = handle.take(alloc) else {
        return NO_CLIENT;
    };
    let id = ObjId { client, counter };
    let parent = ObjId {
        client: parent_client,
        counter: parent_counter,
    };
    let answer = session.move_to(id, parent, after_of(after_client, after_counter));
    handle.put(session);
    answer
}

/// Moves the object under the parent, to the position of these bytes.
#[unsafe(no_mangle)]
pub extern "C" fn lugcurrant_move_at(
    handle: &mut Handle,
    alloc: Global,
    client: u32,
    counter: u32,
    parent_client: u32,
    parent_counter: u32,
    position: &[u8],
) -> u32
    ensures { OnHeld (MoveAtAnswer (object client counter) (object parent_client parent_counter) position.now result) (result ≡ no_client) handle.old.kept.session handle.new.kept.session }
{
    let Some(mut session) = handle.take(alloc) else {
        return NO_CLIENT;
    };
    let id = ObjId { client, counter };
    let parent = ObjId {
        client: parent_client,
        counter: parent_counter,
    };
    let answer = session.move_at(alloc, id, parent, position);
    handle.put(session);
    answer
}

/// Moves the object under the parent, behind all its other children.
#[unsafe(no_mangle)]
pub extern "C" fn lugcurrant_move_last(
    handle: &mut Handle,
    alloc: Global,
    client: u32,
    counter: u32,
    parent_client: u32,
    parent_counter: u32,
) -> u32
    ensures { OnHeld (MoveThereAnswer LiesLast (object client counter) (object parent_client parent_counter) result) (result ≡ no_client) handle.old.kept.session handle.new.kept.session }
{
    let Some(mut session) = handle.take(alloc) else {
        return NO_CLIENT;
    };
    let id = ObjId { client, counter };
    let parent = ObjId {
        client: parent_client,
        counter: parent_counter,
    };
    let answer = session.move_last(id, parent);
    handle.put(session);
    answer
}

/// Moves the object under the parent, before all its other children.
#[unsafe(no_mangle)]
pub extern "C" fn lugcurrant_move_first(
    handle: &mut Handle,
    alloc: Global,
    client: u32,
    counter: u32,
    parent_client: u32,
    parent_counter: u32,
) -> u32
    ensures { OnHeld (MoveThereAnswer LiesFirst (object client counter) (object parent_client parent_counter) result) (result ≡ no_client) handle.old.kept.session handle.new.kept.session }
{
    let Some(mut session) = handle.take(alloc) else {
        return NO_CLIENT;
    };
    let id = ObjId { client, counter };
    let parent = ObjId {
        client: parent_client,
        counter: parent_counter,
    };
    let answer = session.move_first(id, parent);
    handle.put(session);
    answer
}

/// Removes the object; what lies below it is shown no more.
#[unsafe(no_mangle)]
pub extern "C" fn lugcurrant_delete(
    handle: &mut Handle,
    alloc: Global,
    client: u32,
    counter: u32,
) -> u32
    ensures { OnHeld (DeleteAnswer (object client counter) result) (result ≡ no_client) handle.old.kept.session handle.new.kept.session }
{
    let Some(mut session) = handle.take(alloc) else {
        return NO_CLIENT;
    };
    let id = ObjId { client, counter };
    let answer = session.delete(id);
    handle.put(session);
    answer
}

/// Leaves the text of a Join.
#[unsafe(no_mangle)]
pub extern "C" fn lugcurrant_join(handle: &mut Handle, alloc: Global) -> u32
    ensures { OnHeld (JoinAnswer result) (result ≡ no_client) handle.old.kept.session handle.new.kept.session }
{
    let Some(mut session) = handle.take(alloc) else {
        return NO_CLIENT;
    };
    let answer = session.join(alloc);
    handle.put(session);
    answer
}

/// Leaves the text that asks for what came after the client's version; there is none while it has no id.
#[unsafe(no_mangle)]
pub extern "C" fn lugcurrant_ask(handle: &mut Handle, alloc: Global) -> u32
    ensures { OnHeld (AskAnswer result) (result ≡ no_client) handle.old.kept.session handle.new.kept.session }
{
    let Some(mut session) = handle.take(alloc) else {
        return NO_CLIENT;
    };
    let answer = session.ask(alloc);
    handle.put(session);
    answer
}

/// Leaves the text of the i-th edit that waits, counted from 1.
#[unsafe(no_mangle)]
pub extern "C" fn lugcurrant_edit(handle: &mut Handle, alloc: Global, i: u64) -> u32
    ensures { OnHeld (WaitingAnswer i result) (result ≡ no_client) handle.old.kept.session handle.new.kept.session }
{
    let Some(mut session) = handle.take(alloc) else {
        return NO_CLIENT;
    };
    let answer = session.waiting(alloc, i);
    handle.put(session);
    answer
}

/// Leaves the text of the tree that the client shows.
#[unsafe(no_mangle)]
pub extern "C" fn lugcurrant_tree(handle: &mut Handle, alloc: Global) -> u32
    ensures { OnHeld (TreeAnswer result) (result ≡ no_client) handle.old.kept.session handle.new.kept.session }
{
    let Some(mut session) = handle.take(alloc) else {
        return NO_CLIENT;
    };
    let answer = session.tree(alloc);
    handle.put(session);
    answer
}

/// Leaves the row of an object of the view.
#[unsafe(no_mangle)]
pub extern "C" fn lugcurrant_object(
    handle: &mut Handle,
    alloc: Global,
    client: u32,
    counter: u32,
) -> u32
    ensures { OnHeld (ObjectAnswer (object client counter) result) (result ≡ no_client) handle.old.kept.session handle.new.kept.session }
{
    let Some(mut session) = handle.take(alloc) else {
        return NO_CLIENT;
    };
    let id = ObjId { client, counter };
    let answer = session.object(alloc, id);
    handle.put(session);
    answer
}

/// Leaves the ids of an object's children in the view, in order.
#[unsafe(no_mangle)]
pub extern "C" fn lugcurrant_children(
    handle: &mut Handle,
    alloc: Global,
    client: u32,
    counter: u32,
) -> u32
    ensures { OnHeld (ChildrenAnswer (object client counter) result) (result ≡ no_client) handle.old.kept.session handle.new.kept.session }
{
    let Some(mut session) = handle.take(alloc) else {
        return NO_CLIENT;
    };
    let id = ObjId { client, counter };
    let answer = session.children(alloc, id);
    handle.put(session);
    answer
}

/// Whether the object is in the tree that the client shows.
#[unsafe(no_mangle)]
pub extern "C" fn lugcurrant_in_tree(
    handle: &mut Handle,
    alloc: Global,
    client: u32,
    counter: u32,
) -> u32
    ensures { OnHeld (InTreeAnswer (object client counter) result) (result ≡ no_client) handle.old.kept.session handle.new.kept.session }
{
    let Some(session) = handle.take(alloc) else {
        return NO_CLIENT;
    };
    let id = ObjId { client, counter };
    let answer = session.in_tree(id);
    handle.put(session);
    answer
}

/// Leaves the text of the client, of which `lugcurrant_load` makes it again.
#[unsafe(no_mangle)]
pub extern "C" fn lugcurrant_save(handle: &mut Handle, alloc: Global) -> u32
    ensures { OnHeld (SaveAnswer result) (result ≡ no_client) handle.old.kept.session handle.new.kept.session }
{
    let Some(mut session) = handle.take(alloc) else {
        return NO_CLIENT;
    };
    let answer = session.save(alloc);
    handle.put(session);
    answer
}

/// How many bytes were left; 0 where there is no client.
#[unsafe(no_mangle)]
pub extern "C" fn lugcurrant_length(handle: &mut Handle, alloc: Global) -> usize
    ensures { OnHeld (λ old new. (new ≡ old) × (result ≡ length old.left.items)) (result ≡ 0) handle.old.kept.session handle.new.kept.session }
{
    let Some(session) = handle.take(alloc) else {
        return 0;
    };
    let length = session.left.len();
    handle.put(session);
    length
}

/// Copies the bytes that were left to the start of the room, where they fit.
#[unsafe(no_mangle)]
pub extern "C" fn lugcurrant_read(handle: &mut Handle, alloc: Global, room: &mut [u8]) -> u32
    ensures { OnHeld (ReadAnswer room.old room.new result) ((result ≡ no_client) × (room.new ≡ room.old)) handle.old.kept.session handle.new.kept.session }
{
    let Some(mut session) = handle.take(alloc) else {
        return NO_CLIENT;
    };
    let answer = session.read(room);
    handle.put(session);
    answer
}
