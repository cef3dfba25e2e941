// The rule over the published board: two kinds of step, to publish and to enter.
ghost use Rattle.std.specs.Prelude.{drop};
ghost use mathlib.Core.List.{IsPrefix};
ghost use Rattle.canvas_board.specs.Publishing.{ShowsPending, last_of};

use crate::{Board, Mark, RoomName, Step};
use core::mem::replace_with;
use crossbeam_utils::rule::{Outcome, Protocol};
use left_right::reader::Reader;
use left_right::writer::Writer;
use std::alloc::AllocError;
use std::collections::LinkedList;
use std::sync::Wait;

/// The rule: what is published begins with what each reader has seen.
pub struct Published;

impl<N: RoomName> Protocol<Board<N>, LinkedList<Mark>> for Published {
    ghost use Rattle.std.specs.Prelude.{[]};
    ghost use Rattle.canvas_board.specs.Rules.{KeepsViews};

    ghost holds = { KeepsViews };

    ghost first = { [] };
}

/// The outcome of both kinds of step: all that is published was seen.
pub struct SeesAll;

impl<N: RoomName> Outcome<Board<N>, LinkedList<Mark>> for SeesAll {
    ghost use Rattle.canvas_board.specs.Rules.{SeesAll};

    ghost then = { SeesAll };
}

/// The reading end of a board.
pub type BoardReader<N> = Reader<Board<N>, LinkedList<Mark>, Published>;

/// The writing end of a board.
pub type BoardWriter<N> = Writer<Board<N>, Step<N>, LinkedList<Mark>, Published>;

// Publishes what is pending, and gives the writer back.
fn show_all<N: RoomName, W: Wait>(
    writer: BoardWriter<N>,
    rt: &W,
) -> (BoardWriter<N>, Result<(), AllocError>)
    requires { IsPrefix writer.desk.shown.value (last_of writer.desk.shown.value (drop writer.behind writer.log.items)) }
    ensures { ShowsPending result.1 writer.desk.shown.value (drop writer.behind writer.log.items) result.0.desk.shown.value (drop result.0.behind result.0.log.items) }
{
    writer.publish_as::<SeesAll, W>(rt)
}

/// Publishes what is pending. If memory runs out, readers see what they saw, and the same is pending.
pub fn publish<N: RoomName, W: Wait>(writer: &mut BoardWriter<N>, rt: &W) -> Result<(), AllocError>
    requires { IsPrefix writer.old.desk.shown.value (last_of writer.old.desk.shown.value (drop writer.old.behind writer.old.log.items)) }
    ensures { ShowsPending result writer.old.desk.shown.value (drop writer.old.behind writer.old.log.items) writer.new.desk.shown.value (drop writer.new.behind writer.new.log.items) }
{
    replace_with(writer, rt, show_all::<N, W>)
}

/// A reader that has seen nothing.
pub fn reader_of<N: RoomName>(writer: &BoardWriter<N>) -> Result<BoardReader<N>, AllocError> {
    writer.factory().reader()
}
