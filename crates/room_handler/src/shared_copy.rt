// A copy of the document that many clients are sent.
ghost use Rattle.std.specs.Prelude.{◌≡◌, IfOk, IfSome};
ghost use Rattle.std.specs.Option.{option_map};
ghost use Rattle.net_outbox.specs.Texts.{text_bytes};
ghost use Rattle.canvas_model.specs.Numbered.{nth};
ghost use Rattle.canvas_board.specs.Marks.{board};
ghost use Rattle.room_handler.specs.Copies.{EndsCopies};
ghost use Rattle.room_handler.specs.Table.{TellsCopy};

use bytes::Bytes;
use canvas_board::{Front, RoomName, Snapshot};
use canvas_doc::Doc;
use canvas_judge::Counts;
use canvas_wire::{encode_copy_start, encode_rows};
use net_outbox::Text;
use std::alloc::{AllocError, Global};
use std::marker::Model;

/// A copy of the document at one moment, written once for all clients that are sent it: the text of its rows, which the copies share, and of
/// each client how many of its edits were judged by then. Contracts view it as the history at that moment.
pub struct SharedCopy<N: RoomName> {
    front: Front<N>,
    version: u64,
    floor: u64,
    clients: Vec<Counts>,
    // The end of each copy: the text of its rows, and a bracket.
    end: Bytes,
}

impl<N: RoomName> Drop for SharedCopy<N> {
    fn drop(self) {
        let SharedCopy {
            front: _,
            version: _,
            floor: _,
            clients: _,
            end: _,
        } = self;
    }
}

impl<N: RoomName> Model for SharedCopy<N> {
    ghost use Rattle.std.specs.Prelude.{List};
    ghost use Rattle.std.specs.Coded.{codes};
    ghost use Rattle.canvas_model.specs.Codes.{value_code};
    ghost use Rattle.canvas_board.specs.Marks.{Mark, board};
    ghost use Rattle.room_handler.specs.Copies.{IsKeptForCopies};

    ghost Value = { List Mark };

    ghost coded = { Prim.hlevel (codes, value_code) };

    ghost view = { λ c. c.front };

    ghost invariant = { λ c. IsKeptForCopies (board N.opening c.front) c.version c.floor c.clients.items c.end };
}

impl<N: RoomName> SharedCopy<N> {
    /// The copy of this moment. Errors: out of memory.
    pub(crate) fn of(alloc: Global, snapshot: &Snapshot<N>) -> Result<SharedCopy<N>, AllocError>
        ensures { IfOk result (λ copy. copy ≡ snapshot.now) }
    {
        let state = snapshot.state();
        Ok(SharedCopy {
            front: snapshot.front().again(),
            version: snapshot.version(),
            floor: snapshot.floor(),
            clients: state.clients().to_vec(alloc)?,
            end: end_of_copies(alloc, state.doc())?,
        })
    }

    /// The history at its moment.
    pub(crate) fn front(&self) -> &Front<N>
        ensures { result.now ≡ self.now }
    {
        &self.front
    }

    /// How many entries were published by then.
    pub fn version(&self) -> u64
        ensures { result ≡ (board N.opening self.now).version }
    {
        self.version
    }

    // How many of a client's edits were judged by then, if it had joined.
    fn done(&self, client: u32) -> Option<u64>
        ensures { result ≡ option_map (λ counts. counts.done) (nth (board N.opening self.now).state.clients client) }
    {
        if client == 0 {
            return None;
        }
        match self.clients.get(client as usize - 1) {
            Some(counts) => Some(counts.done),
            None => None,
        }
    }

    /// Checks whether there is a text for a client at this version: it had joined by then, and its version is below the last checkpoint of then.
    pub fn is_for(&self, client: u32, version: u64) -> bool {
        self.done(client).is_some() && version < self.floor && version < self.version
    }

    /// Returns the end that all copies of its moment share.
    pub fn end(&self) -> &Bytes {
        &self.end
    }

    /// Returns the text of a copy for a client whose version is below the last checkpoint of then. Returns None if its version isn't below
    /// that, and if it hadn't joined. Errors: out of memory.
    pub(crate) fn text(
        &self,
        alloc: Global,
        client: u32,
        version: u64,
    ) -> Result<Option<Text>, AllocError>
        ensures { IfOk result (λ given. IfSome given (λ text. TellsCopy (board N.opening self.now) client version (text_bytes text))) }
    {
        let Some(done) = self.done(client) else {
            return Ok(None);
        };
        if version >= self.floor {
            return Ok(None);
        }
        if version >= self.version {
            return Ok(None);
        }
        let start = encode_copy_start(alloc, self.version, done)?;
        Ok(Some(Text::sharing(start, &self.end)?))
    }
}

// Returns the end of each copy of a document. Errors: out of memory.
fn end_of_copies(alloc: Global, doc: &Doc) -> Result<Bytes, AllocError>
    ensures { IfOk result (λ end. EndsCopies end doc.now) }
{
    let mut end = encode_rows(alloc, doc)?;
    end.push(b']')?;
    Ok(Bytes::from_vec(end)?)
}
