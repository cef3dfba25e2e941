// The calls of a shelf.
ghost use Rattle.std.specs.Prelude.{◌≡◌, MatchOption};

/// A call of a shelf, and the number of the segment that it was about.
#[derive(Clone, Copy, Debug, PartialEq, Eq)]
pub enum ShelfCall {
    /// The segments were listed.
    List,
    /// This segment was read.
    Read(u32),
    /// This segment was made.
    Create(u32),
    /// Bytes were put at the end of this segment.
    Append(u32),
    /// This segment was synced.
    Sync(u32),
    /// This segment was taken off the list.
    Retire(u32),
}

impl ShelfCall {
    ghost use Rattle.disk_integrity.specs.Calls.{IsAbout, call_code, segment_of_call};
    ghost use Rattle.disk_integrity.specs.declared.call.ShelfCall.{ShelfCall};

    /// Which call it was, as a number from 1.
    pub(crate) fn code(self) -> u64
        ensures { result ≡ call_code self }
    {
        match self {
            ShelfCall::List => 1,
            ShelfCall::Read(_) => 2,
            ShelfCall::Create(_) => 3,
            ShelfCall::Append(_) => 4,
            ShelfCall::Sync(_) => 5,
            ShelfCall::Retire(_) => 6,
        }
    }

    /// The number of the segment, or 0 where it was about none.
    pub(crate) fn number(self) -> u32
        ensures { result ≡ segment_of_call self }
    {
        match self {
            ShelfCall::List => 0,
            ShelfCall::Read(number)
            | ShelfCall::Create(number)
            | ShelfCall::Append(number)
            | ShelfCall::Sync(number)
            | ShelfCall::Retire(number) => number,
        }
    }

    /// The call of this code, about the segment of this number. None where no call has the code.
    pub(crate) fn of_code(code: u64, number: u32) -> Option<ShelfCall>
        ensures { MatchOption result ((call : ShelfCall) → call_code call ≡ code → ⊥) (λ call. (call_code call ≡ code) × IsAbout call number) }
    {
        match code {
            1 => Some(ShelfCall::List),
            2 => Some(ShelfCall::Read(number)),
            3 => Some(ShelfCall::Create(number)),
            4 => Some(ShelfCall::Append(number)),
            5 => Some(ShelfCall::Sync(number)),
            6 => Some(ShelfCall::Retire(number)),
            _ => None,
        }
    }
}
