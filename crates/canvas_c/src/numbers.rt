// The numbers that calls answer.
ghost use Rattle.std.specs.Prelude.{◌≡◌};
ghost use Rattle.canvas_client.specs.Ends.{end_error_number};
ghost use Rattle.canvas_c.specs.Numbers.{clear_number, create_at_number, create_end_number, create_number, edit_number, heard_number, load_number, move_at_number, name_number, place_number, position_number, received_number, resume_number, resumed_number, set_number, value_number, wire_number};

use canvas_client::{EditError, EndError, PlaceError, Received};
use canvas_embed::{
    ClearError, CreateAtError, CreateEndError, CreateError, Heard, LoadError, MoveAtError,
    ResumeError, Resumed, SetError, ValueError,
};
use canvas_pos::PosError;
use canvas_value::NameError;
use canvas_wire::WireError;

// The call has done what it is for.
pub(crate) const DONE: u32 = 0;

// The object isn't in the tree.
pub(crate) const NOT_SHOWN: u32 = 2;

// Memory ran out.
pub(crate) const MEMORY: u32 = 10;

// The handle holds no client.
pub(crate) const NO_CLIENT: u32 = 20;

// The handle holds a client already.
pub(crate) const HELD: u32 = 21;

// There is no such text.
pub(crate) const NOTHING: u32 = 22;

// The room is too small.
pub(crate) const NO_ROOM: u32 = 23;

// Why the client refuses an edit.
pub(crate) fn edit_number(error: EditError) -> u32
    ensures { result ≡ edit_number error }
{
    error.number() as u32
}

// Why the client refuses an edit at a place.
fn place_number(error: PlaceError) -> u32
    ensures { result ≡ place_number error }
{
    error.number() as u32
}

// Why the client makes no edit at an end.
pub(crate) fn end_number(error: EndError) -> u32
    ensures { result ≡ end_error_number error }
{
    error.number() as u32
}

// Why bytes are no position.
fn position_number(error: PosError) -> u32
    ensures { result ≡ position_number error }
{
    match error {
        PosError::Empty => 33,
        PosError::TooLong => 34,
        PosError::BadByte(_) => 35,
        PosError::TrailingZero => 36,
        PosError::Memory => MEMORY,
    }
}

// Why bytes are no name.
fn name_number(error: NameError) -> u32
    ensures { result ≡ name_number error }
{
    match error {
        NameError::Empty => 30,
        NameError::TooLong => 31,
        NameError::BadByte => 32,
        NameError::Memory => MEMORY,
    }
}

// Why bytes are the JSON of no value.
fn value_number(error: ValueError) -> u32
    ensures { result ≡ value_number error }
{
    match error {
        ValueError::NotJson => 40,
        ValueError::NotAValue => 41,
        ValueError::OutOfRange => 43,
        ValueError::TooDeep => 44,
        ValueError::Memory => MEMORY,
    }
}

// Why bytes are the text of no message.
pub(crate) fn wire_number(error: WireError) -> u32
    ensures { result ≡ wire_number error }
{
    match error {
        WireError::NotJson => 40,
        WireError::NotAMessage => 42,
        WireError::OutOfRange => 43,
        WireError::TooDeep => 44,
        WireError::Memory => MEMORY,
    }
}

// Why nothing is created.
pub(crate) fn create_number(error: CreateError) -> u32
    ensures { result ≡ create_number error }
{
    match error {
        CreateError::NoKind => 24,
        CreateError::Edit(error) => edit_number(error),
    }
}

// Why nothing is created at a place.
pub(crate) fn create_at_number(error: CreateAtError) -> u32
    ensures { result ≡ create_at_number error }
{
    match error {
        CreateAtError::NoKind => 24,
        CreateAtError::Position(error) => position_number(error),
        CreateAtError::Edit(error) => place_number(error),
    }
}

// Why nothing is moved to a place.
pub(crate) fn move_at_number(error: MoveAtError) -> u32
    ensures { result ≡ move_at_number error }
{
    match error {
        MoveAtError::Position(error) => position_number(error),
        MoveAtError::Edit(error) => place_number(error),
    }
}

// Why nothing is created at an end.
pub(crate) fn create_end_number(error: CreateEndError) -> u32
    ensures { result ≡ create_end_number error }
{
    match error {
        CreateEndError::NoKind => 24,
        CreateEndError::Edit(error) => end_number(error),
    }
}

// Why no property is set.
pub(crate) fn set_number(error: SetError) -> u32
    ensures { result ≡ set_number error }
{
    match error {
        SetError::Name(error) => name_number(error),
        SetError::Value(error) => value_number(error),
        SetError::Edit(error) => edit_number(error),
    }
}

// Why no property is taken away.
pub(crate) fn clear_number(error: ClearError) -> u32
    ensures { result ≡ clear_number error }
{
    match error {
        ClearError::Name(error) => name_number(error),
        ClearError::Edit(error) => edit_number(error),
    }
}

// Why bytes are no client.
pub(crate) fn load_number(error: LoadError) -> u32
    ensures { result ≡ load_number error }
{
    match error {
        LoadError::NotJson => 40,
        LoadError::NotAClient => 45,
        LoadError::OutOfRange => 43,
        LoadError::TooDeep => 44,
        LoadError::Inconsistent => 46,
        LoadError::Memory => MEMORY,
    }
}

// What the client did with a message.
fn received_number(received: Received) -> u32
    ensures { result ≡ received_number received }
{
    match received {
        Received::Took => 50,
        Received::Old => 51,
        Received::Ahead => 52,
        Received::NotForMe => 53,
    }
}

// What was heard of the server.
pub(crate) fn heard_number(heard: Heard) -> u32
    ensures { result ≡ heard_number heard }
{
    match heard {
        Heard::Received(received) => received_number(received),
        Heard::Idle => 54,
        Heard::No(reason) => 60 + reason.number() as u32,
    }
}

// What became of an edit that was saved.
pub(crate) fn resumed_number(resumed: Resumed) -> u32
    ensures { result ≡ resumed_number resumed }
{
    match resumed {
        Resumed::Made => DONE,
        Resumed::Had => 51,
    }
}

// Why no edit is made again.
pub(crate) fn resume_number(error: ResumeError) -> u32
    ensures { result ≡ resume_number error }
{
    match error {
        ResumeError::Message(error) => wire_number(error),
        ResumeError::NotAnEdit => 47,
        ResumeError::NotOwn => 48,
        ResumeError::Gap => 49,
        ResumeError::NotNext => 46,
    }
}
