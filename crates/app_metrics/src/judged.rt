// How a request was judged.
ghost use Rattle.std.specs.Prelude.{◌≡◌};
ghost use Rattle.app_metrics.specs.Judged.{judged_of};

use canvas_judge::{Entry, Outcome, What};
use canvas_model::Reason;

/// How a request was judged.
#[derive(Clone, Copy, Debug, PartialEq, Eq)]
pub enum Judgement {
    /// A Join got its id.
    Joined,
    /// The rules let an edit pass.
    Accepted,
    /// They refused it, for this reason.
    Refused(Reason),
}

/// How the request of an entry was judged.
pub fn how_judged(entry: &Entry) -> Judgement
    ensures { result ≡ judged_of entry.now.what entry.now.outcome }
{
    match (&entry.what, &entry.outcome) {
        (What::Join, _) => Judgement::Joined,
        (What::Edit(_), Outcome::Refused { reason, .. }) => Judgement::Refused(*reason),
        (What::Edit(_), _) => Judgement::Accepted,
    }
}
