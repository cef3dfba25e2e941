// That the positions and names of what is written are such, and its numbers in range as far as their types say it. These functions
// change nothing when they run: the proof of what is written needs them.
ghost use Rattle.std.specs.Prelude.{◌≡◌, ◌≤◌, ◌<◌, ◌^◌, ℕ, true};
ghost use Rattle.std.specs.List.{All};
ghost use Rattle.canvas_model.specs.Log.{last_version};
ghost use Rattle.canvas_model.specs.Storable.{AsksShallow};
ghost use Rattle.canvas_judge.specs.Seen.{seen_message, seen_what};
ghost use Rattle.canvas_forms.specs.Version.{version_two};
ghost use Rattle.canvas_forms.specs.Ids.{client_form};
ghost use Rattle.canvas_forms.specs.Outcomes.{outcome_form};
ghost use Rattle.canvas_forms.specs.Entries.{what_form, entry_form};
ghost use Rattle.canvas_wire.specs.Heads.{head_form};
ghost use Rattle.canvas_forms.specs.EntryTexts.{IsShallowEntry, IsEntryInRange};
ghost use Rattle.canvas_wire.specs.Text.{IsHeadInRange};
ghost use Rattle.canvas_wire.specs.Messages.{parts_form, parts_of, message_json, is_orderly};

use canvas_forms::sound::{know_client, sound_change, sound_doc, sound_outcome};
use canvas_judge::{Counts, Entry, Message, What};
use std::alloc::Allocator;

// Of a message.
pub(crate) fn sound_message<A: Allocator>(message: &Message<A>)
    ensures sound { (parts_form version_two).sound (parts_of (seen_message message.now)) ≡ true }
    ensures orderly { is_orderly (message_json version_two (seen_message message.now)) ≡ true }
{
    match message {
        Message::Edit { change, .. } => sound_change(change),
        Message::Entry { entry, .. } => sound_entry(entry),
        Message::Copy(copy) => sound_doc(&copy.doc),
        _ => {}
    }
}

// Of the head of a checkpoint.
pub(crate) fn sound_head(clients: &[Counts], version: u64, count: u64)
    ensures sound { head_form.sound (record { version = version; clients = clients.now; count = count }) ≡ true }
    ensures in_range { version ≤ last_version → All (λ k. k.done ≤ last_version) clients.now → 1 ≤ count → count ≤ last_version
        → IsHeadInRange (record { version = version; clients = clients.now; count = count }) }
{
    know_clients(clients);
}

// Of the counts of clients.
fn know_clients(clients: &[Counts])
    ensures { All (λ k. client_form.fits k.used ≡ true) clients.now }
{
    for counts in clients {
        know_client(counts.used);
    }
}

// Of an entry.
pub(crate) fn sound_entry<A: Allocator>(entry: &Entry<A>)
    ensures sound { (entry_form version_two).sound entry.now ≡ true }
    ensures shallow { IsShallowEntry entry.now }
    ensures author { client_form.fits entry.now.author ≡ true }
    ensures seq { entry.now.seq < 2 ^ 64 }
    ensures what { what_form.fits entry.now.what ≡ true }
    ensures outcome { (outcome_form version_two).fits entry.now.outcome ≡ true }
    ensures in_range { entry.now.seq ≤ last_version → IsEntryInRange entry.now }
{
    know_client(entry.author);
    know_seq(entry.seq);
    sound_what(&entry.what);
    sound_outcome(&entry.outcome);
}

// Of a request's number.
fn know_seq(seq: u64)
    ensures { seq < 2 ^ 64 }
{}

// Of what was asked.
fn sound_what<A: Allocator>(what: &What<A>)
    ensures sound { what_form.sound (seen_what what.now) ≡ true }
    ensures shallow { AsksShallow (seen_what what.now) }
    ensures in_range { what_form.fits (seen_what what.now) ≡ true }
{
    if let What::Edit(change) = what {
        sound_change(change);
    }
}
