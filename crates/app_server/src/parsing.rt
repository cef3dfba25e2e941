// How messages are parsed: one long message at a time.
ghost use Rattle.std.specs.Prelude.{IfErr, IfNone, IfOk, IfSome};
ghost use Rattle.canvas_judge.specs.Seen.{seen_message};
ghost use Rattle.canvas_live.specs.Words.{SpellsNoWord, SpellsWord};
ghost use Rattle.canvas_nodes.specs.Answers.{IsUnasked, SpellsAsked};

use canvas_judge::{Message, NoReason};
use canvas_live::{Word, word_in};
use canvas_nodes::asked;
use std::alloc::{AllocError, Global};
use std::sync::{Mutex, Wait};

// The most bytes of a message that is parsed while others are: 16 KiB. Its JSON tree takes 3 MB at most.
const LONG_BYTES: usize = 16 << 10;

// What the parts of a JSON tree take: an object, which no message has, a list, and an item.
const OBJECT_BYTES: usize = 1_100;

const LIST_BYTES: usize = 160;

const ITEM_BYTES: usize = 64;

// What the lists of a text may take for each byte of it: `[]`.
const MOST_FACTOR: usize = LIST_BYTES / 2;

/// The lock under which long messages are parsed, one at a time for all workers. A worker that holds it waits for nothing else.
#[derive(Drop)]
pub(crate) struct Parsing {
    long: Mutex<()>,
}

impl Parsing {
    /// Returns a lock that no worker holds.
    pub(crate) fn new() -> Parsing {
        Parsing {
            long: Mutex::new(()),
        }
    }

    /// Returns the message that these bytes are a text of, if a client sends such messages. Errors: NotRead if they are a text of none, and Memory,
    /// also if a long text has more lists, items and objects than any text of `limit` bytes without objects.
    pub(crate) fn asked<R: Wait>(
        &self,
        rt: &R,
        alloc: Global,
        bytes: &[u8],
        limit: usize,
    ) -> Result<Message, NoReason>
        ensures ok { IfOk result (λ m. SpellsAsked bytes.now (seen_message m)) }
        ensures err { IfErr result (IsUnasked bytes.now) }
    {
        if bytes.len() <= LONG_BYTES {
            return asked(alloc, bytes);
        }
        if tree_bytes(bytes) > limit.saturating_mul(MOST_FACTOR) {
            return Err(NoReason::Memory);
        }
        let held = self.long.lock(rt);
        let message = asked(alloc, bytes);
        drop(held);
        message
    }

    /// Returns the word of live connections that these bytes are a text of, if they are. Errors: out of memory.
    pub(crate) fn word_in<R: Wait>(
        &self,
        rt: &R,
        alloc: Global,
        bytes: &[u8],
    ) -> Result<Option<Word>, AllocError>
        ensures some { IfOk result (λ found. IfSome found (SpellsWord bytes.now)) }
        ensures none { IfOk result (λ found. IfNone found (SpellsNoWord bytes.now)) }
    {
        if bytes.len() <= LONG_BYTES {
            return word_in(alloc, bytes);
        }
        let held = self.long.lock(rt);
        let word = word_in(alloc, bytes);
        drop(held);
        word
    }
}

// What is inside a string: nothing, its text, or the byte after a backslash.
#[derive(Clone, Copy, Drop)]
enum Place {
    Outside,
    Text,
    Escape,
}

// Returns about how many bytes the lists, items and objects of a text take as a JSON tree.
fn tree_bytes(text: &[u8]) -> usize {
    let mut place = Place::Outside;
    let mut bytes: usize = 0;
    for byte in text {
        if let Place::Outside = place {
            bytes = bytes.saturating_add(part_bytes(*byte));
        }
        place = after(place, *byte);
    }
    bytes
}

// Returns about how many bytes a part takes that begins with this byte.
fn part_bytes(byte: u8) -> usize {
    match byte {
        b'{' => OBJECT_BYTES,
        b'[' => LIST_BYTES,
        b',' => ITEM_BYTES,
        _ => 0,
    }
}

// Returns where the next byte is, after this one.
fn after(place: Place, byte: u8) -> Place {
    match (place, byte) {
        (Place::Outside, b'"') | (Place::Escape, _) => Place::Text,
        (Place::Text, b'"') => Place::Outside,
        (Place::Text, b'\\') => Place::Escape,
        _ => place,
    }
}
