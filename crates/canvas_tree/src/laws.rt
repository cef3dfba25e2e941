// The laws of trees. The functions do nothing: each contract is a law of the definitions, which the
// crates above use by calling them.
ghost use Rattle.canvas_model.specs.Laws.{AfterEachRun};
ghost use Rattle.canvas_tree.specs.Headline.{HoldOneDocument};
ghost use Rattle.canvas_tree.specs.Laws.{ChainsAreBelow, EachHasTree, FoundAreTrees, NoneHasTwo, PathsAreChains, SizesCount, TreesHoldInTree, TreesHoldOnce};

use canvas_model::{every_log, every_run};

/// Exactly one finite tree fits each document.
pub fn one_tree()
    ensures some { EachHasTree }
    ensures one { NoneHasTwo }
{}

/// What stands in the tree of a document: the objects from which a chain of parents leads to the
/// root, each once.
pub fn stands_in_tree()
    ensures in_tree { TreesHoldInTree }
    ensures once { TreesHoldOnce }
    ensures size { SizesCount }
{}

/// What the tree of a document answers: the path to an object is its chain of parents, and the tree
/// found at it is the one at it.
pub fn reads_tree()
    ensures chains { ChainsAreBelow }
    ensures path { PathsAreChains }
    ensures found { FoundAreTrees }
{}

/// The headline: after every list of events the server and all nodes hold one document, and show
/// one tree of it.
///
/// It rests on nothing but the laws that its body calls, which does nothing when it runs.
pub fn one_document()
    ensures { AfterEachRun HoldOneDocument }
{
    every_log();
    every_run();
    one_tree();
    reads_tree();
}
