// What the shelf over a store became, and what the store was.
ghost use Rattle.std.specs.Prelude.{◌≡◌, ◌++◌, ◌∷◌, [], true, List, length, OnOk, OnErr};
ghost use Rattle.canvas_shelf.specs.Disk.{Segment, Content};
ghost use Rattle.canvas_etcd.specs.Stores.{changed_by, may_be};
ghost use Rattle.memory_store.specs.Held.{disk_after, stored_each};
ghost use Rattle.memory_store.specs.Sound.{are_legal, have_notes};
ghost use Rattle.memory_store.specs.declared.notes.Moment.{Moment};

use crate::held::Held;
use crate::lost::Lost;
use canvas_etcd::ShelfChange;
use std::alloc::AllocError;

// What the shelf became.
#[derive(Drop)]
pub(crate) struct Note {
    pub(crate) change: ShelfChange,
    pub(crate) number: u32,
    pub(crate) bytes: Vec<u8>,
}

// What the store was.
#[derive(Drop)]
pub(crate) struct Moment {
    pub(crate) held: Vec<Held>,
    pub(crate) lost: Option<Lost>,
    // How many notes there were.
    pub(crate) notes: usize,
}

// Keeps a moment of so many notes.
pub(crate) fn keep(
    past: &mut Vec<Moment>,
    notes: &[Note],
    held: Vec<Held>,
    lost: Option<Lost>,
) -> Result<(), AllocError>
    ensures ok { OnOk result (past.new.items ≡ past.old.items ++ record { held = held; lost = lost; notes = length notes.now } ∷ []) }
    ensures err { OnErr result (past.new.items ≡ past.old.items) }
    ensures fits { have_notes (length notes.now) past.old.items ≡ true → have_notes (length notes.now) past.new.items ≡ true }
{
    past.push(Moment {
        held,
        lost,
        notes: notes.len(),
    })?;
    Ok(())
}

// Adds a note.
pub(crate) fn add(notes: &mut Vec<Note>, note: Note) -> Result<(), AllocError>
    ensures ok { OnOk result ((disk : List Segment) → disk_after notes.new.items disk ≡ changed_by note.change note.number note.bytes.items (disk_after notes.old.items disk)) }
    ensures err { OnErr result (notes.new.items ≡ notes.old.items) }
    ensures legal { (disk : List Segment) → are_legal notes.old.items disk ≡ true → may_be note.change note.number (disk_after notes.old.items disk) ≡ true → are_legal notes.new.items disk ≡ true }
    ensures fits { (past : List Moment) → have_notes (length notes.old.items) past ≡ true → have_notes (length notes.new.items) past ≡ true }
    ensures past { (base : Content) (past : List Moment) → have_notes (length notes.old.items) past ≡ true → stored_each notes.new.items base past ≡ stored_each notes.old.items base past }
{
    notes.push(note)?;
    Ok(())
}
