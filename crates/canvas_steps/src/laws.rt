// The laws, as contracts of functions without a body: a proof that needs a law calls its function.
ghost use Rattle.canvas_steps.specs.Again.{EachDeletionIsTakenBack, EachIsMadeAgain};
ghost use Rattle.canvas_steps.specs.Back.{EachChangeIsTakenBack, EachOtherStays, EachStepIsTakenBack};
ghost use Rattle.canvas_steps.specs.Undo.{EachNoteRestores};
ghost use Rattle.canvas_steps.specs.Fold.{EachFoldCreatesTheSame, EachFoldIsOneLess, EachFoldKeepsOwn, EachFoldShowsTheSame, EachFoldStands};

/// A change or a step, followed by what undoes it, gives the same view. An object that is created again under a new id is the same but
/// for its id. What undoes a step changes only the objects that the step changed.
pub fn every_undo()
    ensures change { EachChangeIsTakenBack }
    ensures step { EachStepIsTakenBack }
    ensures again { EachIsMadeAgain }
    ensures deletion { EachDeletionIsTakenBack }
    ensures others { EachOtherStays }
    ensures note { EachNoteRestores }
{}

/// If the last waiting edit replaces an earlier one as it may, the view is the same over every document, one edit less waits, the same
/// objects are created, and a client that was right for a document is right for it still.
pub fn every_fold()
    ensures same { EachFoldShowsTheSame }
    ensures creates { EachFoldCreatesTheSame }
    ensures less { EachFoldIsOneLess }
    ensures own { EachFoldKeepsOwn }
    ensures stands { EachFoldStands }
{}
