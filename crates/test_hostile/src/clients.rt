// One client: what it answers messages and edits, with each growth refused in turn, and what is seen of it.
use crate::reads::{write_beginnings, write_path, write_view};
use crate::same::same_client;
use crate::trials::{Trial, write_growths};
use canvas_client::{Client, EditError, EditRequest, EditRequestVariant, Received};
use canvas_doc::ObjId;
use canvas_edit_lines::{read_edit, write_client};
use canvas_judge::Message;
use canvas_wire::{decode, encode};
use refusing::Refusing;
use std::alloc::{AllocError, Allocator, Global};
use test_cases::Text;

/// What a client is given, or asked to do.
#[derive(Drop)]
pub enum Step {
    /// A message.
    Give(Message),
    /// An edit, by the call that takes any request.
    Edit(EditRequest),
    /// An edit, by the call for edits of its kind.
    Make(EditRequest),
}

// What a client answers a step.
#[derive(Clone, Copy, PartialEq, Eq)]
enum Told {
    // What it did with a message, and how many changes that made.
    Received(Received, u64),
    // The number of its edit.
    Made(u64),
    // The number of its edit, and the object that this created.
    Created(u64, ObjId),
    // Why it refuses an edit.
    Refused(EditError),
}

// Makes an edit by the call for edits of its kind. What it needs of the request is copied.
fn make<A: Allocator + Copy>(
    alloc: A,
    client: &mut Client<A>,
    request: &EditRequest,
) -> Result<Told, EditError> {
    let number = match request.variant() {
        EditRequestVariant::Create {
            kind,
            parent,
            after,
        } => {
            let (number, id) = client.create(*kind, *parent, *after)?;
            return Ok(Told::Created(number, id));
        }
        EditRequestVariant::Set { id, name, value } => {
            client.set(*id, name.copy_in(alloc)?, value.copy_in(alloc)?)?
        }
        EditRequestVariant::Clear { id, name } => client.clear(*id, name.copy_in(alloc)?)?,
        EditRequestVariant::Move { id, parent, after } => client.move_to(*id, *parent, *after)?,
        EditRequestVariant::Delete { id } => client.delete(*id)?,
    };
    Ok(Told::Made(number))
}

// What is told of an edit. The error is that memory ran out.
fn edited(answer: Result<Told, EditError>) -> Result<Told, AllocError> {
    match answer {
        Ok(told) => Ok(told),
        Err(EditError::Memory) => Err(AllocError),
        Err(error) => Ok(Told::Refused(error)),
    }
}

// Takes a step.
fn take<A: Allocator + Copy>(
    alloc: A,
    client: &mut Client<A>,
    step: &Step,
) -> Result<Told, AllocError> {
    match step {
        Step::Give(message) => {
            let received = client.receive(message)?;
            Ok(Told::Received(received, client.last_changes()))
        }
        Step::Edit(request) => edited(client.edit(request).map(Told::Made)),
        Step::Make(request) => edited(make(alloc, client, request)),
    }
}

// A client that has taken these steps.
fn after<A: Allocator + Copy>(alloc: A, steps: &[Step]) -> Result<Client<A>, AllocError> {
    let mut client = Client::new(alloc)?;
    for step in steps {
        take(alloc, &mut client, step)?;
    }
    Ok(client)
}

// What a client that has taken these steps tells of one more.
fn told_after(alloc: Global, steps: &[Step], step: &Step) -> Result<Told, AllocError> {
    let mut client = after(alloc, steps)?;
    take(alloc, &mut client, step)
}

// Some steps, one more, all of them, and what is told of the last where nothing is refused.
#[derive(Clone, Copy)]
struct LastStep<'a> {
    before: &'a [Step],
    step: &'a Step,
    all: &'a [Step],
    told: Told,
}

impl<'a, A: Allocator + Copy> Trial<A> for LastStep<'a> {
    type Subject = Client<A>;

    fn begin(&self, _global: Global, alloc: A) -> Result<Client<A>, AllocError> {
        after(alloc, self.before)
    }

    fn call(&self, _global: Global, alloc: A, client: &mut Client<A>) -> Result<bool, AllocError> {
        Ok(take(alloc, client, self.step)? == self.told)
    }

    fn is_as_wanted(
        &self,
        global: Global,
        client: &mut Client<A>,
        is_made: bool,
    ) -> Result<bool, AllocError> {
        let steps = if is_made { self.all } else { self.before };
        let other = after(global, steps)?;
        same_client(global, client, &other)
    }
}

// Adds what a step is answered.
fn write_told(told: Told, text: &mut Text) {
    match told {
        Told::Received(received, changes) => {
            write!(text, "{received:?}, last changes {changes}")
        }
        Told::Made(number) => write!(text, "edit {number}"),
        Told::Created(number, id) => write!(text, "edit {number} creates {id}"),
        Told::Refused(error) => write!(text, "refused {error:?}"),
    }
}

// Adds what a client is answered to the last of these steps.
fn answer_last(
    global: Global,
    heap: &Refusing<Global>,
    steps: &[Step],
    text: &mut Text,
) -> Result<(), AllocError> {
    let [before @ .., step] = steps else {
        return Ok(());
    };
    let told = told_after(global, before, step)?;
    write_told(told, text);
    let trial = LastStep {
        before,
        step,
        all: steps,
        told,
    };
    write_growths(global, heap, &trial, text);
    Ok(())
}

// The step that a line asks for.
fn read_step(alloc: Global, line: &str) -> Option<Step> {
    if let Some(text) = line.strip_prefix("give ") {
        return Some(Step::Give(decode(alloc, alloc, text.as_bytes()).ok()?));
    }
    if let Some(text) = line.strip_prefix("make ") {
        return Some(Step::Make(read_edit(alloc, text.as_bytes()).ok()?));
    }
    let text = line.strip_prefix("edit ")?;
    Some(Step::Edit(read_edit(alloc, text.as_bytes()).ok()?))
}

// Adds the client's block, and the number of its last edit that it knows to be judged.
fn write_block(global: Global, client: &Client, text: &mut Text) -> Result<(), AllocError> {
    let mut block = Vec::new(global);
    write_client(global, b"client", client, &mut block)?;
    text.push_str(str::from_utf8(&block).unwrap_or("cannot show\n"));
    write!(text, "acknowledged {}\n", client.acknowledged());
    Ok(())
}

// Adds the messages of the edits that wait.
fn write_waiting(global: Global, client: &Client, text: &mut Text) -> Result<(), AllocError> {
    for i in 1..=client.unacknowledged() {
        let message = encode(global, &client.message(global, i)?)?;
        text.push_str(str::from_utf8(&message).unwrap_or("cannot show"));
        text.push_str("\n");
    }
    Ok(())
}

// Adds what is seen of a client.
fn write_seen(
    global: Global,
    heap: &Refusing<Global>,
    client: &Client,
    asked: &str,
    text: &mut Text,
) -> Result<(), AllocError> {
    if asked == "show" {
        write_block(global, client, text)?;
    } else if asked == "waiting" {
        write_waiting(global, client, text)?;
    } else if asked == "reads" {
        write_view(global, heap, client.view(), text)?;
    } else if asked == "beginnings" {
        write_beginnings(global, heap, text);
    } else {
        text.push_str("cannot read\n");
    }
    Ok(())
}

/// Adds what a client that has taken these steps answers a line. If the line is a step, it is added to the steps.
pub fn answer_line(
    global: Global,
    heap: &Refusing<Global>,
    steps: &mut Vec<Step>,
    line: &str,
    text: &mut Text,
) -> Result<(), AllocError> {
    if let Some(step) = read_step(global, line) {
        steps.push(step)?;
        return answer_last(global, heap, steps, text);
    }
    let client = after(global, steps)?;
    let Some(id) = line.strip_prefix("path ") else {
        return write_seen(global, heap, &client, line, text);
    };
    match ObjId::try_from(id.as_bytes()) {
        Ok(id) => write_path(global, heap, client.view(), id, text),
        Err(_) => write_seen(global, heap, &client, line, text),
    }
}
