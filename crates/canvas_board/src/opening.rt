// How a board is opened.
ghost use Rattle.std.specs.Prelude.{◌≡◌, ◌≤◌, ◌<◌, [], IfOk, drop, replicate};
ghost use Rattle.canvas_model.specs.Log.{last_version};

use crate::rule::{BoardReader, BoardWriter, reader_of};
use crate::{Blank, Board, Front, Opening, Publisher, Reader, RoomName};
use std::alloc::{AllocError, Global};
use std::collections::VecDeque;
use std::sync::Wait;

// Both copies of the board, before the first mark, and its writing end.
fn written<N: RoomName>(
    alloc: Global,
    opening: &Opening,
    front: &Front<N>,
    readers: usize,
) -> Result<BoardWriter<N>, AllocError>
    requires opening { (opening.now ≡ N.opening) × (front.now ≡ []) }
    requires few { opening.now.version ≤ last_version }
    requires readers { (0 < readers) × (readers ≤ 64) }
    ensures { IfOk result (λ w. (w.desk.shown.value ≡ []) × (drop w.behind w.log.items ≡ [])) }
{
    let first = Board::open(alloc, opening, front.again())?;
    let second = Board::open(alloc, opening, front.again())?;
    BoardWriter::<N>::new(alloc, first, second, readers)
}

// So many reading ends, each of which has seen this beginning.
fn read<N: RoomName>(
    alloc: Global,
    writer: &BoardWriter<N>,
    front: &Front<N>,
    readers: usize,
) -> Result<Vec<Reader<N>>, AllocError>
    ensures { IfOk result (λ ends. ends.items ≡ replicate readers front.now) }
{
    let mut ends = Vec::with_capacity(alloc, readers)?;
    for _ in 0..readers {
        let end: BoardReader<N> = reader_of(writer)?;
        ends.push(Reader::new(end, front.again()))?;
    }
    Ok(ends)
}

/// Opens a board of 1 to 64 reading ends: its writing end, which has published nothing and owes nothing, and the reading ends, which have
/// seen nothing. Errors: out of memory.
pub fn open_board<N: RoomName, W: Wait>(
    alloc: Global,
    blank: Blank,
    opening: &Opening,
    readers: usize,
    rt: &W,
) -> Result<(Publisher<N>, Vec<Reader<N>>), AllocError>
    requires book { blank.seen.book ≡ N.book }
    requires opening { opening.now ≡ N.opening }
    requires few { opening.now.version ≤ last_version }
    requires readers { (0 < readers) × (readers ≤ 64) }
    ensures writes { IfOk result (λ ends. (ends.0.history ≡ []) × (ends.0.due ≡ [])) }
    ensures reads { IfOk result (λ ends. ends.1.items ≡ replicate readers []) }
{
    let (book, front) = blank.named::<N>();
    let owed = VecDeque::with_capacity(alloc, 1)?;
    let writer = written(alloc, opening, &front, readers)?;
    match read(alloc, &writer, &front, readers) {
        Ok(ends) => Ok((Publisher::new(owed, book, front, writer), ends)),
        Err(error) => {
            writer.take(rt);
            Err(error)
        }
    }
}
