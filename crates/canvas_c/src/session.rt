// A client, and the bytes that its last call left.
ghost use Rattle.std.specs.Prelude.{◌≡◌, IfErr, IfOk};
ghost use Rattle.canvas_model.specs.Client as client;
ghost use Rattle.canvas_client.specs.Ends.{LiesFirst, LiesLast};
ghost use Rattle.canvas_client.specs.Kept.{IsKept};
ghost use Rattle.canvas_embed.specs.Saves.{IsLoadError, SpellsClient};
ghost use Rattle.canvas_embed.specs.declared.fault.LoadError.TheVariants as load;
ghost use Rattle.canvas_c.specs.Answers.{AskAnswer, ChildrenAnswer, ClearAnswer, CreateAnswer, CreateAtAnswer, CreateThereAnswer, DeleteAnswer, InTreeAnswer, IsLoaded, IsNewSession, JoinAnswer, MoveAnswer, MoveAtAnswer, MoveThereAnswer, ObjectAnswer, ReadAnswer, ReceiveAnswer, ResumeAnswer, SaveAnswer, SetAnswer, TellAnswer, TreeAnswer, WaitingAnswer};

use crate::ids::ObjectId;
use crate::numbers::{
    DONE, MEMORY, NO_ROOM, NOT_SHOWN, NOTHING, clear_number, create_at_number, create_end_number,
    create_number, edit_number, end_number, heard_number, move_at_number, resume_number,
    resumed_number, set_number, wire_number,
};
use canvas_client::Client;
use canvas_doc::ObjId;
use canvas_embed::LoadError;
use std::alloc::{AllocError, Global};

/// A client, and the bytes that were left to be read.
#[derive(Drop)]
pub struct Session {
    pub client: Client,
    pub left: Vec<u8>,
}

impl Session {
    /// A client without an id. Errors: out of memory.
    pub fn new(alloc: Global) -> Result<Session, AllocError>
        ensures { IfOk result IsNewSession }
    {
        let client = Client::new(alloc)?;
        Ok(Session {
            client,
            left: Vec::new(alloc),
        })
    }

    /// The client of which the bytes are a text.
    pub fn load(alloc: Global, bytes: &[u8]) -> Result<Session, LoadError>
        ensures ok { IfOk result (IsLoaded bytes.now) }
        ensures only { (client : client.Client) → SpellsClient bytes.now client → IfOk result (λ s. s.client ≡ client) }
        ensures only_memory { (client : client.Client) → SpellsClient bytes.now client → IsKept client → IfErr result (λ error. error ≡ load.Memory) }
        ensures fault { IfErr result (IsLoadError bytes.now) }
    {
        match canvas_embed::load(alloc, bytes) {
            Ok(client) => Ok(Session {
                client,
                left: Vec::new(alloc),
            }),
            Err(error) => Err(error),
        }
    }

    /// Receives a message by its bytes.
    pub fn receive(&mut self, alloc: Global, bytes: &[u8]) -> u32
        ensures { ReceiveAnswer bytes.now result self.old self.new }
    {
        match canvas_embed::receive(alloc, &mut self.client, bytes) {
            Ok(heard) => heard_number(heard),
            Err(error) => wire_number(error),
        }
    }

    /// Receives a message by its bytes, and leaves which objects of the view may have changed.
    pub fn receive_and_tell(&mut self, alloc: Global, bytes: &[u8]) -> u32
        ensures { TellAnswer bytes.now result self.old self.new }
    {
        match canvas_embed::receive_and_tell(alloc, &mut self.client, bytes) {
            Ok((heard, changed)) => {
                self.left = changed;
                heard_number(heard)
            }
            Err(error) => wire_number(error),
        }
    }

    /// Makes an edit again by the bytes of its message.
    pub fn resume(&mut self, alloc: Global, bytes: &[u8]) -> u32
        ensures { ResumeAnswer bytes.now result self.old self.new }
    {
        match canvas_embed::resume(alloc, &mut self.client, bytes) {
            Ok(resumed) => resumed_number(resumed),
            Err(error) => resume_number(error),
        }
    }

    /// Creates an object of the kind of this number, and tells its id.
    pub fn create(
        &mut self,
        kind: u32,
        parent: ObjId,
        after: Option<ObjId>,
        made: &mut ObjectId,
    ) -> u32
        ensures { CreateAnswer kind (record { parent = parent; after = after }) made.old made.new result self.old self.new }
    {
        match canvas_embed::create(&mut self.client, kind, parent, after) {
            Ok((_, id)) => {
                *made = ObjectId {
                    client: id.client,
                    counter: id.counter,
                };
                DONE
            }
            Err(error) => create_number(error),
        }
    }

    /// Creates an object at the position of these bytes, and tells its id.
    pub fn create_at(
        &mut self,
        alloc: Global,
        kind: u32,
        parent: ObjId,
        position: &[u8],
        made: &mut ObjectId,
    ) -> u32
        ensures { CreateAtAnswer kind parent position.now made.old made.new result self.old self.new }
    {
        match canvas_embed::create_at(alloc, &mut self.client, kind, parent, position) {
            Ok((_, id)) => {
                *made = ObjectId {
                    client: id.client,
                    counter: id.counter,
                };
                DONE
            }
            Err(error) => create_at_number(error),
        }
    }

    /// Creates an object behind the parent's children, and tells its id.
    pub fn create_last(&mut self, kind: u32, parent: ObjId, made: &mut ObjectId) -> u32
        ensures { CreateThereAnswer LiesLast kind parent made.old made.new result self.old self.new }
    {
        match canvas_embed::create_last(&mut self.client, kind, parent) {
            Ok((_, id)) => {
                *made = ObjectId {
                    client: id.client,
                    counter: id.counter,
                };
                DONE
            }
            Err(error) => create_end_number(error),
        }
    }

    /// Creates an object before the parent's children, and tells its id.
    pub fn create_first(&mut self, kind: u32, parent: ObjId, made: &mut ObjectId) -> u32
        ensures { CreateThereAnswer LiesFirst kind parent made.old made.new result self.old self.new }
    {
        match canvas_embed::create_first(&mut self.client, kind, parent) {
            Ok((_, id)) => {
                *made = ObjectId {
                    client: id.client,
                    counter: id.counter,
                };
                DONE
            }
            Err(error) => create_end_number(error),
        }
    }

    /// Gives a property the value of which the bytes are the JSON.
    pub fn set(&mut self, alloc: Global, id: ObjId, name: &[u8], json: &[u8]) -> u32
        ensures { SetAnswer id name.now json.now result self.old self.new }
    {
        match canvas_embed::set(alloc, &mut self.client, id, name, json) {
            Ok(_) => DONE,
            Err(error) => set_number(error),
        }
    }

    /// Takes a property away.
    pub fn clear(&mut self, alloc: Global, id: ObjId, name: &[u8]) -> u32
        ensures { ClearAnswer id name.now result self.old self.new }
    {
        match canvas_embed::clear(alloc, &mut self.client, id, name) {
            Ok(_) => DONE,
            Err(error) => clear_number(error),
        }
    }

    /// Moves an object.
    pub fn move_to(&mut self, id: ObjId, parent: ObjId, after: Option<ObjId>) -> u32
        ensures { MoveAnswer id (record { parent = parent; after = after }) result self.old self.new }
    {
        match canvas_embed::move_to(&mut self.client, id, parent, after) {
            Ok(_) => DONE,
            Err(error) => edit_number(error),
        }
    }

    /// Moves an object to the position of these bytes.
    pub fn move_at(&mut self, alloc: Global, id: ObjId, parent: ObjId, position: &[u8]) -> u32
        ensures { MoveAtAnswer id parent position.now result self.old self.new }
    {
        match canvas_embed::move_at(alloc, &mut self.client, id, parent, position) {
            Ok(_) => DONE,
            Err(error) => move_at_number(error),
        }
    }

    /// Moves an object behind the parent's other children.
    pub fn move_last(&mut self, id: ObjId, parent: ObjId) -> u32
        ensures { MoveThereAnswer LiesLast id parent result self.old self.new }
    {
        match canvas_embed::move_last(&mut self.client, id, parent) {
            Ok(_) => DONE,
            Err(error) => end_number(error),
        }
    }

    /// Moves an object before the parent's other children.
    pub fn move_first(&mut self, id: ObjId, parent: ObjId) -> u32
        ensures { MoveThereAnswer LiesFirst id parent result self.old self.new }
    {
        match canvas_embed::move_first(&mut self.client, id, parent) {
            Ok(_) => DONE,
            Err(error) => end_number(error),
        }
    }

    /// Removes an object.
    pub fn delete(&mut self, id: ObjId) -> u32
        ensures { DeleteAnswer id result self.old self.new }
    {
        match canvas_embed::delete(&mut self.client, id) {
            Ok(_) => DONE,
            Err(error) => edit_number(error),
        }
    }

    /// Leaves the text of a Join.
    pub fn join(&mut self, alloc: Global) -> u32
        ensures { JoinAnswer result self.old self.new }
    {
        match canvas_embed::join_text(alloc) {
            Ok(text) => {
                self.left = text;
                DONE
            }
            Err(_) => MEMORY,
        }
    }

    /// Leaves the text with which the client asks for what came after its version.
    pub fn ask(&mut self, alloc: Global) -> u32
        ensures { AskAnswer result self.old self.new }
    {
        match canvas_embed::ask_text(alloc, &self.client) {
            Ok(Some(text)) => {
                self.left = text;
                DONE
            }
            Ok(None) => NOTHING,
            Err(_) => MEMORY,
        }
    }

    /// Leaves the text of the i-th edit that waits.
    pub fn waiting(&mut self, alloc: Global, i: u64) -> u32
        ensures { WaitingAnswer i result self.old self.new }
    {
        match canvas_embed::edit_text(alloc, &self.client, i) {
            Ok(Some(text)) => {
                self.left = text;
                DONE
            }
            Ok(None) => NOTHING,
            Err(_) => MEMORY,
        }
    }

    /// Leaves the text of the tree that the client shows.
    pub fn tree(&mut self, alloc: Global) -> u32
        ensures { TreeAnswer result self.old self.new }
    {
        match canvas_embed::tree_text(alloc, &self.client) {
            Ok(text) => {
                self.left = text;
                DONE
            }
            Err(_) => MEMORY,
        }
    }

    /// Leaves the row of an object of the view.
    pub fn object(&mut self, alloc: Global, id: ObjId) -> u32
        ensures { ObjectAnswer id result self.old self.new }
    {
        match canvas_embed::object_text(alloc, &self.client, id) {
            Ok(Some(text)) => {
                self.left = text;
                DONE
            }
            Ok(None) => NOTHING,
            Err(_) => MEMORY,
        }
    }

    /// Leaves the ids of an object's children, in order.
    pub fn children(&mut self, alloc: Global, id: ObjId) -> u32
        ensures { ChildrenAnswer id result self.old self.new }
    {
        match canvas_embed::children_text(alloc, &self.client, id) {
            Ok(text) => {
                self.left = text;
                DONE
            }
            Err(_) => MEMORY,
        }
    }

    /// Tells whether the object is in the tree.
    pub fn in_tree(&self, id: ObjId) -> u32
        ensures { InTreeAnswer id result self.now self.now }
    {
        if canvas_embed::is_in_tree(&self.client, id) {
            DONE
        } else {
            NOT_SHOWN
        }
    }

    /// Leaves the text of the client.
    pub fn save(&mut self, alloc: Global) -> u32
        ensures { SaveAnswer result self.old self.new }
    {
        match canvas_embed::save(alloc, &self.client) {
            Ok(text) => {
                self.left = text;
                DONE
            }
            Err(_) => MEMORY,
        }
    }

    /// Copies what was left to the start of the room, where it fits.
    pub fn read(&mut self, room: &mut [u8]) -> u32
        ensures { ReadAnswer room.old room.new result self.old self.new }
    {
        let length = self.left.len();
        if length > room.len() {
            return NO_ROOM;
        }
        room[..length].copy_from_slice(&self.left);
        DONE
    }
}
