// How a server is stopped in good order: by a file that comes.
ghost use Rattle.std.specs.Prelude.{◌≡◌, IfErr, IsSome, IsTrue};
ghost use Rattle.app_storage.specs.Faults.{IsStopFault};

use app_faults::Fault;
use std::alloc::AllocError;
use std::fs;

/// The file at which a server ends, if one is named.
pub(crate) struct StopFile {
    /// Where files are looked at.
    pub(crate) files: HostRuntime,
    /// Its path.
    pub(crate) path: Option<String>,
}

impl Drop for StopFile {
    fn drop(self) {
        let StopFile { files: _, path: _ } = self;
    }
}

impl StopFile {
    /// The same file, for another thread. Errors: out of memory.
    pub(crate) fn another(&self) -> Result<StopFile, AllocError> {
        Ok(StopFile {
            files: self.files,
            path: self.path.clone()?,
        })
    }

    /// Looks whether the file isn't there yet, before a server starts: `StopFile` if it is, or can't be looked at.
    pub(crate) fn look_first(&self) -> Result<(), Fault>
        ensures { IfErr result (IsStopFault self.now.path) }
    {
        let Some(path) = &self.path else {
            return Ok(());
        };
        match fs::exists(&self.files, path) {
            Ok(false) => Ok(()),
            Ok(true) | Err(_) => Err(Fault::StopFile),
        }
    }

    /// Checks whether the file has come.
    pub(crate) fn has_come(&self) -> bool
        ensures { IsTrue result → IsSome self.now.path }
    {
        match &self.path {
            Some(path) => matches!(fs::exists(&self.files, path), Ok(true)),
            None => false,
        }
    }
}
