// Calls that only read, and calls that make what is empty, with each growth refused in turn.
use crate::same::{same_client, same_world};
use crate::trials::{Trial, write_growths};
use canvas_client::Client;
use canvas_doc::{Doc, ObjId};
use canvas_judge::{Entry, State};
use canvas_server::Server;
use canvas_tree::{Tree, grow, write_props};
use canvas_world::World;
use refusing::Refusing;
use std::alloc::{AllocError, Allocator, Global};
use test_cases::Text;

// What stands in a text before more is written.
const HEAD: &[u8] = b"head\n";

// The most entries that are told at once.
const MOST_TOLD: u64 = 64;

// What is written of a tree.
#[derive(Clone, Copy)]
enum Form {
    // All of it.
    Text,
    // The properties of its root.
    Props,
}

// A call, what it reads, and what it answers where nothing is refused.
#[derive(Clone, Copy)]
enum Reading<'a> {
    // An empty client is made.
    NewClient,
    // An empty world is made.
    NewWorld,
    // A document is copied.
    CopyDoc(&'a Doc),
    // The children of the root are listed.
    ListChildren(&'a Doc),
    // The tree of a document is grown.
    GrowTree(&'a Doc, &'a Tree),
    // A tree is copied.
    CopyTree(&'a Tree),
    // A tree is written behind what stands there.
    WriteTree(&'a Tree, Form),
    // The path to an object is looked for in a tree.
    FindPath(&'a Tree, ObjId, Option<&'a [ObjId]>),
    // A state is copied.
    CopyState(&'a State),
    // The entries past the floor are told.
    TellEntries(&'a Server, &'a [Entry]),
}

// Checks whether a new client is empty.
fn makes_client<A: Allocator + Copy>(global: Global, alloc: A) -> Result<bool, AllocError> {
    let client = Client::new(alloc)?;
    same_client(global, &client, &Client::new(global)?)
}

// Checks whether a new world is empty.
fn makes_world<A: Allocator + Copy>(global: Global, alloc: A) -> Result<bool, AllocError> {
    let world = World::new(alloc)?;
    same_world(global, &world, &World::new(global)?, 1)
}

// Checks whether the root's children are listed as in ample memory.
fn lists_children<A: Allocator + Copy>(
    global: Global,
    alloc: A,
    doc: &Doc,
) -> Result<bool, AllocError> {
    let ids = doc.children(alloc, ObjId::ROOT)?;
    Ok(ids.as_slice() == doc.children(global, ObjId::ROOT)?.as_slice())
}

// Writes a tree.
fn write_tree<A: Allocator>(
    global: Global,
    tree: &Tree,
    form: Form,
    out: &mut Vec<u8, A>,
) -> Result<(), AllocError> {
    match form {
        Form::Text => tree.text(global, 1, out),
        Form::Props => write_props(global, &tree.props, 1, out),
    }
}

// Checks whether this is what a tree is written as behind what stands there.
fn is_written(global: Global, tree: &Tree, form: Form, text: &[u8]) -> Result<bool, AllocError> {
    let mut wanted = Vec::from_slice(global, HEAD)?;
    write_tree(global, tree, form, &mut wanted)?;
    Ok(wanted.as_slice() == text)
}

// Checks whether a tree is written as in ample memory behind what stands there.
fn writes_tree<A: Allocator + Copy>(
    global: Global,
    alloc: A,
    tree: &Tree,
    form: Form,
) -> Result<bool, AllocError> {
    let mut out = Vec::from_slice(alloc, HEAD)?;
    match write_tree(global, tree, form, &mut out) {
        Ok(()) => is_written(global, tree, form, &out),
        // Nothing may have been written then.
        Err(error) if out.as_slice() == HEAD => Err(error),
        Err(_) => Ok(false),
    }
}

// Checks whether this is the path to an object.
fn finds_path<A: Allocator + Copy>(
    alloc: A,
    tree: &Tree,
    id: ObjId,
    path: Option<&[ObjId]>,
) -> Result<bool, AllocError> {
    Ok(match (tree.path_to(alloc, id)?, path) {
        (Some(found), Some(path)) => found.as_slice() == path,
        (None, None) => true,
        _ => false,
    })
}

// Checks whether these are the same entries in the same order.
fn are_same<A: Allocator>(one: &[Entry<A>], two: &[Entry]) -> bool {
    for (entry, other) in one.iter().zip(two.iter()) {
        if !entry.same(other) {
            return false;
        }
    }
    one.len() == two.len()
}

// Checks whether a server tells these entries.
fn tells_entries<A: Allocator + Copy>(
    alloc: A,
    server: &Server,
    entries: &[Entry],
) -> Result<bool, AllocError> {
    match server.tail(alloc, server.floor(), MOST_TOLD)? {
        Some(told) => Ok(are_same(&told, entries)),
        None => Ok(false),
    }
}

impl<'a, A: Allocator + Copy> Trial<A> for Reading<'a> {
    type Subject = ();

    fn begin(&self, _global: Global, _alloc: A) -> Result<(), AllocError> {
        Ok(())
    }

    fn call(&self, global: Global, alloc: A, _subject: &mut ()) -> Result<bool, AllocError> {
        match self {
            Reading::NewClient => makes_client(global, alloc),
            Reading::NewWorld => makes_world(global, alloc),
            Reading::CopyDoc(doc) => Ok(doc.copy(alloc)?.same(doc)),
            Reading::ListChildren(doc) => lists_children(global, alloc, doc),
            Reading::GrowTree(doc, tree) => Ok(grow(alloc, doc)?.same(tree)),
            Reading::CopyTree(tree) => Ok(tree.copy_in(alloc)?.same(tree)),
            Reading::WriteTree(tree, form) => writes_tree(global, alloc, tree, *form),
            Reading::FindPath(tree, id, path) => finds_path(alloc, tree, *id, *path),
            Reading::CopyState(state) => Ok(state.copy_in(alloc)?.same(state)),
            Reading::TellEntries(server, entries) => tells_entries(alloc, server, entries),
        }
    }

    fn is_as_wanted(
        &self,
        _global: Global,
        _subject: &mut (),
        _is_made: bool,
    ) -> Result<bool, AllocError> {
        Ok(true)
    }
}

// Adds how many growths of a call were refused.
fn write_call(
    global: Global,
    heap: &Refusing<Global>,
    word: &str,
    reading: Reading<'_>,
    text: &mut Text,
) {
    text.push_str(word);
    write_growths(global, heap, &reading, text);
}

/// Adds what comes of making a client and a world.
pub fn write_beginnings(global: Global, heap: &Refusing<Global>, text: &mut Text) {
    write_call(global, heap, "new client", Reading::NewClient, text);
    write_call(global, heap, "new world", Reading::NewWorld, text);
}

/// Adds what comes of the calls that read a view.
pub fn write_view(
    global: Global,
    heap: &Refusing<Global>,
    view: &Doc,
    text: &mut Text,
) -> Result<(), AllocError> {
    write_call(
        global,
        heap,
        "document copied",
        Reading::CopyDoc(view),
        text,
    );
    write_call(global, heap, "children", Reading::ListChildren(view), text);
    let tree = grow(global, view)?;
    write!(text, "tree of {} grown", tree.count());
    write_call(global, heap, "", Reading::GrowTree(view, &tree), text);
    write_call(global, heap, "tree copied", Reading::CopyTree(&tree), text);
    let whole = Reading::WriteTree(&tree, Form::Text);
    write_call(global, heap, "tree written", whole, text);
    let props = Reading::WriteTree(&tree, Form::Props);
    write_call(global, heap, "root's properties written", props, text);
    Ok(())
}

// Adds the ids of a path, or that there is none.
fn write_ids(ids: Option<&[ObjId]>, text: &mut Text) {
    let Some(ids) = ids else {
        return text.push_str("no path");
    };
    text.push_str("path");
    for id in ids {
        write!(text, " {id}");
    }
}

/// Adds the path to an object in a document's tree, and what comes of looking for it.
pub fn write_path(
    global: Global,
    heap: &Refusing<Global>,
    doc: &Doc,
    id: ObjId,
    text: &mut Text,
) -> Result<(), AllocError> {
    let tree = grow(global, doc)?;
    let found = tree.path_to(global, id)?;
    let path = found.as_deref();
    write_ids(path, text);
    write_growths(global, heap, &Reading::FindPath(&tree, id, path), text);
    Ok(())
}

/// Adds what comes of the calls that read a server.
pub fn write_server(
    global: Global,
    heap: &Refusing<Global>,
    server: &Server,
    text: &mut Text,
) -> Result<(), AllocError> {
    let state = server.state();
    write_call(
        global,
        heap,
        "state copied",
        Reading::CopyState(state),
        text,
    );
    if let Some(entries) = server.tail(global, server.floor(), MOST_TOLD)? {
        let reading = Reading::TellEntries(server, &entries);
        write_call(global, heap, "entries told", reading, text);
    }
    Ok(())
}
