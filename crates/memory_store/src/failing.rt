// Which of the calls to come fail.
ghost use Rattle.std.specs.Prelude.{◌≡◌, ◌+◌, ℕ};

// Which of the calls to come fail.
#[derive(Clone, Copy)]
pub(crate) enum Failing {
    // None of them.
    Never,
    // All of them after so many.
    After(u64),
    // This one alone, counted from 1.
    Only(u64),
}

impl Failing {
    ghost use Rattle.memory_store.specs.Failing.{store_call_fails};

    // Takes the next call, and tells whether it fails.
    pub(crate) fn next_fails(&mut self) -> bool
        ensures next { result ≡ store_call_fails self.old 0 }
        ensures later { (n : ℕ) → store_call_fails self.new n ≡ store_call_fails self.old (n + 1) }
    {
        match *self {
            Failing::Never => false,
            Failing::After(0) => true,
            Failing::After(calls) => {
                *self = Failing::After(calls - 1);
                false
            }
            Failing::Only(0) => false,
            Failing::Only(call) => {
                *self = Failing::Only(call - 1);
                call == 1
            }
        }
    }
}
