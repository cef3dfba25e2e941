// Laws of clients that follow a log.
ghost use Rattle.canvas_threads.specs.Laws.{EachAcknowledgedIsFound, EachEditIsFollowed, EachFollowerShows, EachPlacedEditIsFollowed, EachTruthIsFollowed, FollowersAgree, NewRoomOpens};
ghost use Rattle.canvas_threads.specs.Pushes.{EachPushIsFollowed, EachPushIsNews, EachPushLeadsOn};

use canvas_board::RoomName;
use canvas_client::{every_placed_edit, every_told_entry};
use canvas_desk::found_after_every_crash;
use canvas_journal::Keeper;
use canvas_model::{every_log, every_view};

/// A client that follows a log in which no other edit took a number of its edits goes on to follow it, by each true message and each edit
/// of its own, also one at a place that the caller names; it shows the document at its version with what waits laid over it, and its acknowledged edits stand in the log once; two
/// that are at one version with nothing waiting show equal documents. A room that begins with nothing opens after no entries. It does
/// nothing when it runs: call it where a proof needs the law.
pub fn every_follower()
    ensures truths { EachTruthIsFollowed }
    ensures edits { EachEditIsFollowed }
    ensures placed { EachPlacedEditIsFollowed }
    ensures shows { EachFollowerShows }
    ensures agree { FollowersAgree }
    ensures opens { NewRoomOpens }
{
    every_log();
    every_view();
    every_told_entry();
    every_placed_edit();
}

/// A law, for every honest keeper and every room: where a seat has seen what was due at a moment at which the desk hadn't failed, and a
/// client follows what the seat has seen, what is found after any crash since then is the board of one legal history in which each edit
/// that the client knows to be judged stands once. A room that opens again on it opens after a legal log, which the client follows
/// still. It does nothing when it runs: call it where a proof needs the law.
pub fn found_again<K: Keeper, N: RoomName>()
    ensures { EachAcknowledgedIsFound N.opening K.honest K.moment K.left_since K.finds K.keeps }
{
    found_after_every_crash::<K, N>();
}

/// Laws of pushes, for every room. A client keeps following its room by whatever it hears of a push, in any order, with losses and
/// repeats. A push from the client's version on, heard whole and in its order, is the news of an Ask that the client might have sent. It
/// raises the version of a client that follows its room, to that of the last entry or copy, if no other client made an edit under its
/// id. The call does nothing when it runs: make it if a proof needs one of them.
pub fn every_push<N: RoomName>()
    ensures followed { EachPushIsFollowed N.opening }
    ensures news { EachPushIsNews N.opening }
    ensures leads_on { EachPushLeadsOn N.opening }
{
    every_log();
    every_view();
    every_told_entry();
}
