// The calls of a shelf in memory, and which of those to come fail.
ghost use Rattle.std.specs.Prelude.{◌≡◌, ◌+◌, ℕ};

/// A call of a shelf.
#[derive(Clone, Copy, Debug, PartialEq, Eq)]
pub enum Call {
    /// The numbers were asked for.
    List,
    /// This segment was to be read.
    Read(u32),
    /// This segment was to be made.
    Create(u32),
    /// This segment was to get so many bytes more.
    Append(u32, usize),
    /// This segment was to be synced.
    Sync(u32),
    /// This segment was to be retired.
    Retire(u32),
}

// Which of the calls to come fail.
#[derive(Clone, Copy)]
pub(crate) enum Failing {
    // None of them.
    Never,
    // All of them after so many.
    After(u64),
    // This one alone, counted from 1.
    Only(u64),
}

impl Failing {
    ghost use Rattle.canvas_shelf.specs.Failing.{fails};

    // Takes the next call, and tells whether it fails.
    pub(crate) fn next_fails(&mut self) -> bool
        ensures next { result ≡ fails self.old 0 }
        ensures then { (n : ℕ) → fails self.new n ≡ fails self.old (n + 1) }
    {
        match *self {
            Failing::Never => false,
            Failing::After(0) => true,
            Failing::After(calls) => {
                *self = Failing::After(calls - 1);
                false
            }
            Failing::Only(0) => false,
            Failing::Only(call) => {
                *self = Failing::Only(call - 1);
                call == 1
            }
        }
    }
}
