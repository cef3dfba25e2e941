// Why a node ends.
ghost use Rattle.std.specs.Prelude.{◌≡◌};
ghost use Rattle.canvas_threads.specs.Errors.{error_of_link, error_told};

use canvas_client::Client;
use canvas_desk::{Refusal, SubmitError};
use canvas_journal::KeepError;
use canvas_judge::NoReason;
use canvas_nodes::LinkError;

/// The error of a node whose client's exchange broke off: the one that a No tells; Memory if memory runs out; and Failed where the
/// link has ended, or its answer is none, which a link to a seat never says.
pub(crate) fn broken_off(client: &Client, error: LinkError) -> SubmitError
    ensures { result ≡ error_of_link client.now.acknowledged error }
{
    match error {
        LinkError::Refused(reason) => told(client.acknowledged(), reason),
        LinkError::Memory => SubmitError::NotKept(KeepError::Memory),
        LinkError::Ended | LinkError::NotRead => SubmitError::NotKept(KeepError::Failed),
    }
}

// The error that a No tells, where so many of the client's edits are known to be judged. A seat never sends Repeat and NotRead.
fn told(done: u64, reason: NoReason) -> SubmitError
    ensures { result ≡ error_told done reason }
{
    match reason {
        NoReason::Stranger => SubmitError::Refused(Refusal::Stranger),
        NoReason::Gap => SubmitError::Refused(Refusal::Gap { done }),
        NoReason::Full => SubmitError::Refused(Refusal::Full),
        NoReason::Device => SubmitError::NotKept(KeepError::Device),
        NoReason::Memory => SubmitError::NotKept(KeepError::Memory),
        NoReason::TooLarge => SubmitError::NotKept(KeepError::TooLarge),
        NoReason::Repeat | NoReason::Failed | NoReason::NotRead => {
            SubmitError::NotKept(KeepError::Failed)
        }
    }
}
