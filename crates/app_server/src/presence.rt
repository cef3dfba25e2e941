// What clients tell the others of themselves, as where their pointers are. It is never kept.
ghost use Rattle.std.specs.Prelude.{IfOk, OnOk, map};
ghost use Rattle.canvas_turns.specs.Told.{AreAll};
ghost use Rattle.app_server.specs.Live.{TellsSomeHere};

use canvas_live::Here;
use mio::Waker;
use std::alloc::{AllocError, Global};
use std::collections::BTreeMap;
use std::sync::atomic::{AtomicBool, AtomicU64, Ordering};
use std::sync::{Arc, Mutex, Wait};

// How many clients that have gone are remembered, so that those who listen are told so.
const MOST_GONE: usize = 4_096;

// How many bytes are told at once, unless one saying has more.
const MOST_BYTES: usize = 64 * 1024;

// What each client told last, under a number that grows with each saying.
#[derive(Drop)]
struct Sayings {
    alloc: Global,
    last: u64,
    numbers: BTreeMap<u32, u64>,
    heres: BTreeMap<u64, Here>,
    // Those of clients that have gone.
    gone: BTreeMap<u64, u32>,
}

impl Sayings {
    // Takes in what a client tells. Returns its number. Errors: out of memory; then nothing has changed.
    fn tell(&mut self, here: Here) -> Result<u64, AllocError> {
        let number = self.last.saturating_add(1);
        let client = here.client;
        self.heres.insert(number, here)?;
        let Ok(before) = self.numbers.insert(client, number) else {
            let _ = self.heres.remove(&number);
            return Err(AllocError);
        };
        if let Some(before) = before {
            let _ = self.heres.remove(&before);
            let _ = self.gone.remove(&before);
        }
        self.last = number;
        Ok(number)
    }

    // Takes in that the connection has ended that told this number of a client: the client has gone, unless it has told more on another one. Errors:
    // out of memory.
    fn end(&mut self, client: u32, told: u64) -> Result<u64, AllocError> {
        let is_last = match self.numbers.get(&client) {
            Some(number) => *number == told,
            None => false,
        };
        if !is_last {
            return Ok(self.last);
        }
        let here = Here::gone(self.alloc, client)?;
        let number = self.tell(here)?;
        self.gone.insert(number, client)?;
        if self.gone.len() > MOST_GONE {
            if let Some((oldest, client)) = self.gone.pop_first() {
                let _ = self.heres.remove(&oldest);
                let _ = self.numbers.remove(&client);
            }
        }
        Ok(number)
    }

    // Returns the texts of what was told behind this number and up to that one: the first of them, up to 64 KiB, and the number of the last of these.
    // Errors: out of memory.
    fn news(&self, after: u64, until: u64) -> Result<(Vec<Vec<u8>>, u64), AllocError>
        ensures { IfOk result (λ news. AreAll TellsSomeHere (map (λ t. t.items) news.0.items)) }
    {
        let mut texts = Vec::new(self.alloc);
        let mut bytes: usize = 0;
        for (number, here) in self.heres.range(after.saturating_add(1)..) {
            if *number > until {
                break;
            }
            bytes = bytes.saturating_add(here.text.len());
            add_text(self.alloc, &mut texts, here)?;
            if bytes >= MOST_BYTES {
                return Ok((texts, *number));
            }
        }
        Ok((texts, until))
    }
}

// Adds the text of what a client tells. Errors: out of memory.
fn add_text(alloc: Global, texts: &mut Vec<Vec<u8>>, here: &Here) -> Result<(), AllocError>
    ensures { OnOk result (AreAll TellsSomeHere (map (λ t. t.items) texts.old.items) → AreAll TellsSomeHere (map (λ t. t.items) texts.new.items)) }
{
    let text = Vec::from_slice(alloc, &here.text)?;
    texts.push(text)?;
    Ok(())
}

// Who is called once something is told.
#[derive(Drop)]
struct Listener {
    waker: Arc<Waker, Global>,
    // Whether it was called since it looked the last time.
    is_called: AtomicBool,
}

/// What the clients of a document tell the others of themselves, each the last thing alone.
#[derive(Drop)]
pub(crate) struct Presence {
    sayings: Mutex<Sayings>,
    last: AtomicU64,
    listeners: Vec<Listener>,
}

impl Presence {
    /// Returns that of a document nobody has told anything yet. Errors: out of memory.
    pub(crate) fn new(
        alloc: Global,
        wakers: Vec<Arc<Waker, Global>>,
    ) -> Result<Presence, AllocError> {
        let sayings = Sayings {
            alloc,
            last: 0,
            numbers: BTreeMap::new(alloc),
            heres: BTreeMap::new(alloc),
            gone: BTreeMap::new(alloc),
        };
        let mut listeners = Vec::with_capacity(alloc, wakers.len())?;
        for waker in wakers {
            listeners.push(Listener {
                waker,
                is_called: AtomicBool::new(false),
            })?;
        }
        Ok(Presence {
            sayings: Mutex::new(sayings),
            last: AtomicU64::new(0),
            listeners,
        })
    }

    /// Takes in what a client tells, in the place of what it told before, and calls the workers. Returns its number. Errors: out of memory.
    pub(crate) fn tell<R: Wait>(&self, rt: &R, here: Here) -> Result<u64, AllocError> {
        let number = self.sayings.lock(rt).tell(here)?;
        self.call(number);
        Ok(number)
    }

    /// Takes in that the connection has ended that told this number of a client last, and calls the workers. If memory runs out, the others aren't
    /// told.
    pub(crate) fn end<R: Wait>(&self, rt: &R, client: u32, told: u64) {
        let number = self.sayings.lock(rt).end(client, told);
        if let Ok(number) = number {
            self.call(number);
        }
    }

    // Calls each worker that has looked since it was called.
    fn call(&self, number: u64) {
        self.last.fetch_max(number, Ordering::SeqCst);
        for listener in self.listeners.iter() {
            if !listener.is_called.swap(true, Ordering::SeqCst) {
                let _ = listener.waker.wake();
            }
        }
    }

    /// Returns the number of what was told last. The worker of this number is called once something is told from now on.
    pub(crate) fn look(&self, worker: usize) -> u64 {
        if let Some(listener) = self.listeners.get(worker) {
            listener.is_called.store(false, Ordering::SeqCst);
        }
        self.last()
    }

    /// Returns how many workers there are.
    pub(crate) fn workers(&self) -> usize {
        self.listeners.len()
    }

    /// Returns the number of what was told last.
    pub(crate) fn last(&self) -> u64 {
        self.last.load(Ordering::SeqCst)
    }

    /// Returns the texts of what was told behind this number and up to that one: the first of them, up to 64 KiB, and the number of the last of
    /// these. Errors: out of memory.
    pub(crate) fn news<R: Wait>(
        &self,
        rt: &R,
        after: u64,
        until: u64,
    ) -> Result<(Vec<Vec<u8>>, u64), AllocError>
        ensures { IfOk result (λ news. AreAll TellsSomeHere (map (λ t. t.items) news.0.items)) }
    {
        let sayings = self.sayings.lock(rt);
        sayings.news(after, until)
    }
}
