// The order of an owner's transactions.
ghost use Rattle.std.specs.Prelude.{◌≡◌, ◌<◌, ◌≤◌, ◌+◌, ◌^◌, ℕ, None, Some, IfSome, IfNone};
ghost use Rattle.canvas_etcd.specs.Turns.{EachLateOneChangesNothing, EachPutBackIsRefused, EachRepeatIsDoneOnce, EachToldOneWasDone, IsNextTurn};

/// What the key of a document's owner says.
#[derive(Clone, Copy, Debug, PartialEq, Eq)]
pub struct OwnerMark {
    /// Who owns the document: no other owner ever has this number.
    pub owner: u64,
    /// By which of the owner's transactions it was written, counted from the takeover, which is 0.
    pub number: u64,
}

/// A transaction of an owner, by the comparison that it is under: the owner's key says `from` before it, and `to` from then on.
#[derive(Clone, Copy, Debug, PartialEq, Eq)]
pub struct Turn {
    /// What the owner's key has to say; `None` if it isn't to be there.
    pub from: Option<OwnerMark>,
    /// What it says from then on.
    pub to: OwnerMark,
}

impl Turn {
    /// The takeover by this owner, where nobody owns the document.
    pub fn takeover(owner: u64) -> Turn
        ensures from { result.from ≡ None }
        ensures to { result.to ≡ record { owner = owner; number = 0 } }
    {
        Turn {
            from: None,
            to: OwnerMark { owner, number: 0 },
        }
    }

    /// The next transaction of an owner, of whom `last` was done last, and `begun` is the highest number that was given to one. `None`
    /// after the last number, and where `begun` is below that of `last`.
    pub fn after(last: OwnerMark, begun: u64) -> Option<Turn>
        ensures next { IfSome result (λ turn. IsNextTurn last begun turn) }
        ensures none { IfNone result ((last.number ≤ begun) → 2 ^ 64 ≤ begun + 1) }
    {
        if begun < last.number {
            return None;
        }
        let number = begun.checked_add(1)?;
        let to = OwnerMark {
            owner: last.owner,
            number,
        };
        Some(Turn {
            from: Some(last),
            to,
        })
    }
}

/// A law: a transaction that is made twice is done once, and told as done both times.
pub fn every_repeat_is_done_once()
    ensures { EachRepeatIsDoneOnce }
{}

/// A law: a transaction that comes late, after later ones of its owner, or others' takeovers, or the end of the owner's lease, changes
/// nothing.
pub fn every_late_one_changes_nothing()
    ensures { EachLateOneChangesNothing }
{}

/// A law: where the owner's key isn't there, is another's, or says less than the owner knows, as after a copy was put back, the owner's next
/// transaction changes nothing, and isn't told as done.
pub fn every_put_back_is_refused()
    ensures { EachPutBackIsRefused }
{}

/// A law: a transaction that is told as done at the end of some steps is done now, or was one of these, where no other one writes what it
/// does.
pub fn every_told_one_was_done()
    ensures { EachToldOneWasDone }
{}
