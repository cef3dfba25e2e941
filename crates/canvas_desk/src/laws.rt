// What follows for a caller.
ghost use Rattle.canvas_desk.specs.Crashes.{EachOfBatchIsDue, EachReceiptIsDue, EachRunHasOneHistory, EachRunKeepsSeen};

use canvas_board::RoomName;
use canvas_journal::Keeper;

/// A law, for every honest keeper and every room: whatever calls a desk answers, one after the other, what is found after a crash since any
/// moment at which it hadn't failed, also in the middle of a call, begins with all that was due at that moment: so with the history of
/// each receipt that it had given by then. And all that is found after such crashes is of one legal history, the one that is due; only if
/// the keeper has failed may entries of the call in which it did stand after that.
pub fn found_after_every_crash<K: Keeper, N: RoomName>()
    ensures history { EachRunHasOneHistory N.opening K.honest K.moment K.left_since K.finds K.keeps }
    ensures seen { EachRunKeepsSeen N.opening K.honest K.moment K.left_since K.finds K.keeps }
    ensures receipt { EachReceiptIsDue N.opening }
    ensures receipts { EachOfBatchIsDue N.opening }
{}
