// The log line of a checkpoint that isn't made while the server runs.
ghost use Rattle.std.specs.Prelude.{◌≡◌, ℕ};
ghost use Rattle.app_storage.specs.Faults.{IsOpeningFault};
ghost use Rattle.app_storage.specs.Refusals.{with_refusal};

use app_faults::Fault;
use canvas_folder::SpaceRefusal;
use std::fmt;

/// Why a checkpoint isn't made while the server keeps running. Its text is a sentence for a person.
#[derive(Clone, Copy, Debug)]
pub struct Refused<'a> {
    /// Why it isn't made.
    pub refusal: SpaceRefusal,
    /// The folder of the document.
    pub dir: &'a str,
}

impl fmt::Display for Refused<'_> {
    ghost use Rattle.std.specs.Prelude.{Some};
    ghost use Rattle.app_storage.specs.Refusals.{refusal_text};

    ghost output = { λ refused. Some (refusal_text refused.refusal refused.dir.now) };

    fn fmt<W: fmt::Write>(&self, f: &mut fmt::Formatter<W>) -> fmt::Result {
        let Refused { refusal, dir } = *self;
        match refusal {
            SpaceRefusal::NoSpace { missing } => write!(
                f,
                "no room for a checkpoint of {dir}: {missing} bytes are missing; free them, edits go on meanwhile"
            ),
            SpaceRefusal::NoDescriptor => write!(
                f,
                "no open file is left for a checkpoint of {dir}: raise the limit (ulimit -n), edits go on meanwhile"
            ),
        }
    }
}

/// The fault of an opening that failed with this one, if the folder refused this last: a shelf without room or a descriptor for a segment
/// reports that memory ran out.
pub fn with_refusal(fault: Fault, refusal: Option<SpaceRefusal>) -> Fault
    ensures fault { result ≡ with_refusal fault refusal }
    ensures opening { (workers : ℕ) → IsOpeningFault workers fault → IsOpeningFault workers result }
{
    match (fault, refusal) {
        (Fault::Memory, Some(SpaceRefusal::NoSpace { missing })) => Fault::NoSpace { missing },
        (Fault::Memory, Some(SpaceRefusal::NoDescriptor)) => Fault::NoDescriptor,
        (fault, _) => fault,
    }
}
