// Objects by two numbers.
ghost use Rattle.std.specs.Prelude.{◌≡◌};
ghost use Rattle.canvas_c.specs.Ids.{after_of};

use canvas_doc::ObjId;

/// An object's id as C is told it.
#[repr(C)]
#[derive(Drop)]
pub struct ObjectId {
    pub client: u32,
    pub counter: u32,
}

// The child to come after: none where both numbers are 0.
#[tactic(auto, unfolding(crate::specs::Ids::after_of))]
pub(crate) fn after_of(client: u32, counter: u32) -> Option<ObjId>
    ensures { result ≡ after_of client counter }
{
    if client == 0 && counter == 0 {
        return None;
    }
    Some(ObjId { client, counter })
}
