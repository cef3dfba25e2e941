// A thread that looks at a room: its figures, and if its journal has failed. Once the server stops it keeps the writer.

use app_listener::Shared;
use app_storage::Task;
use canvas_board::RoomName;
use canvas_journal::Keeper;
use canvas_room::Room;
use std::alloc::Global;
use std::sync::atomic::{AtomicBool, Ordering};
use std::sync::{Arc, Wait};
use std::thread::sleep;
use std::time::{Clock, Duration};

/// How often the document is looked at.
pub(crate) const GLANCE_MILLIS: u64 = 100;

/// What was seen of a room.
#[derive(Drop)]
pub(crate) struct Seen {
    /// Whether its journal has failed.
    pub(crate) has_failed: AtomicBool,
    /// Whether nothing is judged any more, and all that was is kept.
    pub(crate) is_still: AtomicBool,
}

impl Seen {
    /// Nothing was yet.
    pub(crate) fn new() -> Seen {
        Seen {
            has_failed: AtomicBool::new(false),
            is_still: AtomicBool::new(false),
        }
    }
}

/// A room that is looked at, and where what was seen is noted.
pub(crate) struct GlanceTask<K: Keeper + Drop, N: RoomName, R: Wait + Drop> {
    pub(crate) rt: R,
    pub(crate) room: Room<K, N, R>,
    pub(crate) shared: Arc<Shared, Global>,
    pub(crate) seen: Arc<Seen, Global>,
}

impl<K: Keeper + Drop, N: RoomName, R: Wait + Drop> Drop for GlanceTask<K, N, R> {
    fn drop(self) {
        let GlanceTask {
            rt: _,
            room: _,
            shared: _,
            seen: _,
        } = self;
    }
}

impl<K, N, R> Task for GlanceTask<K, N, R>
where
    K: Keeper + Drop,
    N: RoomName,
    R: Wait + Clock + Drop,
{
    // Looks for as long as the server runs.
    fn run(self) {
        let GlanceTask {
            rt,
            room,
            shared,
            seen,
        } = self;
        for _ in rt.forever() {
            glance(&rt, &room, &shared, &seen);
            sleep(&rt, Duration::from_millis(GLANCE_MILLIS));
        }
        unreachable!()
    }
}

// Notes the figures of the document, and if the journal has failed. Once the server stops, no other gets the writer.
fn glance<K, N, R>(rt: &R, room: &Room<K, N, R>, shared: &Shared, seen: &Seen)
where
    K: Keeper + Drop,
    N: RoomName,
    R: Wait + Clock + Drop,
{
    let desk = room.desk(rt);
    shared.figures.stands(
        desk.version(),
        desk.object_count() as u64,
        desk.since_floor(),
    );
    if desk.has_failed() {
        seen.has_failed.store(true, Ordering::SeqCst);
    }
    if shared.has_ended.load(Ordering::SeqCst) {
        seen.is_still.store(true, Ordering::SeqCst);
        rest(rt);
    }
}

// Rests for as long as the program runs.
fn rest<R: Wait + Clock>(rt: &R) {
    for _ in rt.forever() {
        sleep(rt, Duration::from_millis(GLANCE_MILLIS));
    }
    unreachable!()
}
