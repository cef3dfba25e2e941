// How an operator ends connections: by a file that comes with their numbers.

use crate::kick_texts::{MOST_KICK_BYTES, numbers_in};
use crate::kicks::Kicks;
use app_listener::Log;
use std::cell::Cell;
use std::collections::BTreeSet;
use std::fs;
use std::io::{ErrorKind, Read};
use std::sync::Wait;

// Why the numbers of a file aren't taken.
#[derive(Clone, Copy, Debug, PartialEq, Eq)]
enum Obstacle {
    // It can't be read.
    Unreadable,
    // It is a folder, a link, a pipe or the like.
    NotRegular,
    // It has more than 64 KiB.
    TooLarge,
    // It has something else than numbers.
    NoNumbers,
    // It can't be removed.
    Stuck,
    // It was there before the server.
    Early,
}

impl Obstacle {
    // What is logged of it.
    fn words(self) -> &'static str {
        match self {
            Obstacle::Unreadable => "it can't be read",
            Obstacle::NotRegular => "it is no regular file",
            Obstacle::TooLarge => "it has more than 64 KiB",
            Obstacle::NoNumbers => "it needs numbers of connections, one a line",
            Obstacle::Stuck => "it can't be removed",
            Obstacle::Early => "it was there before the server",
        }
    }
}

/// The file with the numbers of connections that an operator ends, if one is named.
pub(crate) struct KickFile {
    files: HostRuntime,
    path: Option<String>,
    // Set once a file that can't be removed is logged.
    is_told: Cell<bool>,
}

impl Drop for KickFile {
    fn drop(self) {
        let KickFile {
            files: _,
            path: _,
            is_told: _,
        } = self;
    }
}

impl KickFile {
    /// Returns the file at this path.
    pub(crate) fn new(files: HostRuntime, path: Option<String>) -> KickFile {
        KickFile {
            files,
            path,
            is_told: Cell::new(false),
        }
    }

    /// Removes a file that is there before the server serves: its numbers are another server's.
    pub(crate) fn clear<R: Wait + AllocGlobal>(&self, rt: &R, log: &Log) {
        let Some(path) = &self.path else {
            return;
        };
        if self.is_there(path) {
            self.refuse(rt, log, path, Obstacle::Early);
        }
    }

    /// Looks whether the file has come. If it has, removes it and has the workers end the connections whose numbers it has. A file that comes
    /// before all workers have looked at the last one waits.
    pub(crate) fn look<R: Wait + AllocGlobal>(&self, rt: &R, log: &Log, kicks: &Kicks) {
        let Some(path) = &self.path else {
            return;
        };
        if !kicks.is_over() {
            return;
        }
        if !self.is_there(path) {
            self.is_told.set(false);
            return;
        }
        match self.read(path) {
            Ok(numbers) => match fs::remove_file(&self.files, path) {
                Ok(()) => kicks.begin(rt, numbers),
                // Who brought it has taken it back.
                Err(error) if error.kind() == ErrorKind::NotFound => {}
                Err(_) => self.refuse(rt, log, path, Obstacle::Stuck),
            },
            Err(obstacle) => self.refuse(rt, log, path, obstacle),
        }
    }

    // Checks whether anything is there, a link that leads nowhere among others.
    fn is_there(&self, path: &String) -> bool {
        fs::symlink_metadata(&self.files, path).is_ok()
    }

    // Removes a file whose numbers aren't taken, and logs why, once of one that can't be removed.
    fn refuse<R: Wait + AllocGlobal>(&self, rt: &R, log: &Log, path: &String, why: Obstacle) {
        let is_gone = match fs::remove_file(&self.files, path) {
            Ok(()) => true,
            // Who brought it has taken it back.
            Err(error) if error.kind() == ErrorKind::NotFound => return,
            Err(_) => false,
        };
        if self.is_told.replace(!is_gone) {
            return;
        }
        let words = why.words();
        if let Ok(line) = format!(in rt.alloc();
            "no connection is ended by the file {path}: {words}"
        ) {
            log.tell(rt, line);
        }
    }

    // Returns the numbers in the file. What isn't a regular file is neither followed nor waited for, unless it takes the place of one after
    // the look at it: std has no flags against following a link then, or waiting for a pipe without a writer.
    fn read(&self, path: &String) -> Result<BTreeSet<u64>, Obstacle> {
        let Ok(found) = fs::symlink_metadata(&self.files, path) else {
            return Err(Obstacle::Unreadable);
        };
        if !found.is_file() {
            return Err(Obstacle::NotRegular);
        }
        if found.len() > MOST_KICK_BYTES {
            return Err(Obstacle::TooLarge);
        }
        let mut bytes = Vec::new(self.files.alloc());
        let Ok(file) = fs::open(&self.files, path) else {
            return Err(Obstacle::Unreadable);
        };
        let most = MOST_KICK_BYTES + 1;
        if file.take(most).read_to_end(&mut bytes).is_err() {
            return Err(Obstacle::Unreadable);
        }
        if bytes.len() as u64 > MOST_KICK_BYTES {
            return Err(Obstacle::TooLarge);
        }
        match numbers_in(self.files.alloc(), &bytes) {
            Ok(Some(numbers)) => Ok(numbers),
            Ok(None) => Err(Obstacle::NoNumbers),
            Err(_) => Err(Obstacle::Unreadable),
        }
    }
}
