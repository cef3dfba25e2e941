// What a server's threads do.
ghost use Rattle.std.specs.Prelude.{◌≡◌, IfErr};

use app_faults::Fault;
use std::thread::{Threads, spawn};

/// What a thread does.
pub trait Task: Drop {
    /// Does it to its end.
    fn run(self);
}

/// Gives a task its thread, which isn't waited for. `NoThread` if none can be made.
pub fn begin_task<R: Threads, T: Task + Send + Drop + 'static>(rt: &R, task: T) -> Result<(), Fault>
    ensures { IfErr result (λ fault. fault ≡ Fault.NoThread) }
{
    match spawn(rt, move || task.run()) {
        Ok(_) => Ok(()),
        Err(_) => Err(Fault::NoThread),
    }
}
