// How many changes write each field: counts of moves and deletions by object, and of sets by property. Moves and deletions of the
// root write nothing, and aren't counted.
ghost use Rattle.std.specs.Prelude.{[], OnOk, OnErr};
ghost use Rattle.canvas_pending.specs.Tallies.{AreTalliesOf, AreTallies, CountsSame, CountsToo, IsCounted};

use crate::objects::Objects;
use crate::props::Props;
use crate::{objects, props};
use canvas_blocks::BlockList;
use canvas_doc::{Change, ChangeVariant};
use std::alloc::{AllocError, Allocator, Global};
use std::collections::BTreeMap;

/// The counts.
#[derive(Drop)]
pub struct Tallies<A: Allocator = Global> {
    pub moves: Objects<A>,
    pub deletes: Objects<A>,
    pub sets: Props<A>,
}

/// No counts. Takes no memory.
pub fn new<A: Allocator + Copy>(alloc: A) -> Tallies<A>
    ensures { AreTalliesOf [] result }
{
    Tallies {
        moves: BTreeMap::new(alloc),
        deletes: BTreeMap::new(alloc),
        sets: BlockList::new(alloc),
    }
}

/// Counts one change more. If memory runs out, nothing has changed.
pub fn raise<A: Allocator + Copy>(
    tallies: &mut Tallies<A>,
    change: &Change<A>,
) -> Result<(), AllocError>
    requires { AreTallies tallies.old }
    ensures ok { OnOk result (CountsToo change.now tallies.old tallies.new) }
    ensures err { OnErr result (CountsSame tallies.old tallies.new) }
    ensures tallies { AreTallies tallies.new }
{
    match change.variant() {
        ChangeVariant::Create { .. } => Ok(()),
        ChangeVariant::Set { id, name, .. } => props::raise(&mut tallies.sets, *id, name),
        ChangeVariant::Move { id, .. } => objects::raise(&mut tallies.moves, *id),
        ChangeVariant::Delete { id } => objects::raise(&mut tallies.deletes, *id),
    }
}

/// Counts one change less, which must have been counted. Takes no memory.
pub fn lower<A: Allocator + Copy>(tallies: &mut Tallies<A>, change: Change<A>)
    requires tallies { AreTallies tallies.old }
    requires counted { IsCounted change tallies.old }
    ensures lowered { CountsToo change tallies.new tallies.old }
    ensures tallies { AreTallies tallies.new }
{
    match change.into_variant() {
        ChangeVariant::Create { .. } => {}
        ChangeVariant::Set { id, name, .. } => props::lower(&mut tallies.sets, id, name),
        ChangeVariant::Move { id, .. } => objects::lower(&mut tallies.moves, id),
        ChangeVariant::Delete { id } => objects::lower(&mut tallies.deletes, id),
    }
}
