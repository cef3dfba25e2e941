// The laws of the wire.
ghost use Rattle.canvas_wire.specs.Laws.{EntriesAreForms, EntriesComeBack, BytesSpellOneEntry};
ghost use Rattle.canvas_wire.specs.Laws.{NextEntriesComeBack, ReadEntriesKeepStorable};
ghost use Rattle.canvas_wire.specs.Laws.{CheckpointsAreForms, BytesSpellOneCheckpoint, ReadCheckpointsAreStorable};
ghost use Rattle.canvas_wire.specs.Laws.{HeadsAreForms, HeadsComeBack, BytesSpellOneHead, StorableHeadsComeBack, NoTextIsBoth};
ghost use Rattle.canvas_wire.specs.Laws.{RowsAreForms, RowsComeBack, BytesSpellOneRow, RowsAreRows};
ghost use Rattle.canvas_wire.specs.Laws.{MessagesAreForms, MessagesComeBack, BytesSpellOneMessage};

/// The laws of entries: what [`encode_entry`](crate::encode_entry) writes of an entry in range whose value isn't too deep is what
/// [`decode_entry`](crate::decode_entry) reads as that entry, and bytes are read as one entry at most. After a state that can be stored,
/// what is written of an entry that may come next is read as that entry, and what is read as one keeps the state such. It does nothing
/// when it runs: call it where a proof needs the laws.
pub fn every_entry()
    ensures form { EntriesAreForms }
    ensures back { EntriesComeBack }
    ensures one { BytesSpellOneEntry }
    ensures next_back { NextEntriesComeBack }
    ensures keeps { ReadEntriesKeepStorable }
{
    canvas_model::every_entry();
}

/// The laws of checkpoints in one text: bytes are read as one checkpoint at most, and a state that is read can be stored where no client
/// has done more than the version. It does nothing when it runs: call it where a proof needs the laws.
pub fn every_checkpoint()
    ensures form { CheckpointsAreForms }
    ensures one { BytesSpellOneCheckpoint }
    ensures storable { ReadCheckpointsAreStorable }
{}

/// The laws of heads of checkpoints: what [`encode_head`](crate::encode_head) writes of a head in range is what
/// [`decode_head`](crate::decode_head) reads as that head, and bytes are read as one head at most. What is written of the head of a state
/// that can be stored, which 1 to 4611686018427387904 rows follow, is read as that head, and what is read as a head isn't read as a
/// checkpoint in one text. It does nothing when it runs: call it where a proof needs the laws.
pub fn every_head()
    ensures form { HeadsAreForms }
    ensures back { HeadsComeBack }
    ensures one { BytesSpellOneHead }
    ensures storable_back { StorableHeadsComeBack }
    ensures apart { NoTextIsBoth }
{}

/// The laws of rows: what [`encode_row`](crate::encode_row) writes of the root, which is a document without a place, or of another object
/// that has a place, is what [`decode_row`](crate::decode_row) reads as that object and its id, where its values aren't too deep, and
/// bytes are read as one row at most, which is such a row. It does nothing when it runs: call it where a proof needs the laws.
pub fn every_row()
    ensures form { RowsAreForms }
    ensures back { RowsComeBack }
    ensures one { BytesSpellOneRow }
    ensures rows { RowsAreRows }
{}

/// The laws of messages: what [`encode`](crate::encode) writes of a message in range whose values aren't too deep is what
/// [`decode`](crate::decode) reads as that message, and bytes are read as one message at most. It does nothing when it runs: call it
/// where a proof needs the laws.
pub fn every_message()
    ensures form { MessagesAreForms }
    ensures back { MessagesComeBack }
    ensures one { BytesSpellOneMessage }
{}
