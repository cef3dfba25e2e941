//! The objects that client 1 creates, by their names in these tests.
use canvas_doc::ObjId;

/// The page that is drawn.
pub const PAGE: ObjId = ObjId {
    client: 1,
    counter: 1,
};

/// The frame that is drawn in it.
pub const FRAME: ObjId = ObjId {
    client: 1,
    counter: 2,
};

/// The shape that is drawn in that.
pub const SHAPE: ObjId = ObjId {
    client: 1,
    counter: 3,
};

/// The first object that is created after these.
pub const FOURTH: ObjId = ObjId {
    client: 1,
    counter: 4,
};

/// The next one.
pub const FIFTH: ObjId = ObjId {
    client: 1,
    counter: 5,
};

/// An object that no client creates here.
pub const ABSENT: ObjId = ObjId {
    client: 1,
    counter: 9,
};

/// The last of 99 frames, one in another, in a page.
pub const INNERMOST: ObjId = ObjId {
    client: 1,
    counter: 100,
};
