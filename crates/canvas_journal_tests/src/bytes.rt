//! Segments as bytes.

/// What opening an empty shelf writes: 57 bytes, a checkpoint of version 0, which is its head and the root's row.
pub const EMPTY: &[u8] =
    b"\x00\x00\x00\x17[\"checkpoint\",2,0,[],1]\x00\x00\x00\x1a[[0,0],\"document\",null,[]]";

/// The checkpoint and the entry of the first Join: 86 bytes.
pub const JOINED: &[u8] =
    b"\x00\x00\x00\x17[\"checkpoint\",2,0,[],1]\x00\x00\x00\x1a[[0,0],\"document\",null,[]]\x00\x00\x00\x19[0,0,\"join\",[\"joined\",1]]";

/// The same as it was written before, the checkpoint in one text: 83 bytes.
pub const OLD_JOINED: &[u8] =
    b"\x00\x00\x00\x32[\"checkpoint\",1,0,[],[[[0,0],\"document\",null,[]]]]\x00\x00\x00\x19[0,0,\"join\",[\"joined\",1]]";

/// The checkpoint after it: 62 bytes.
pub const AFTER_JOIN: &[u8] =
    b"\x00\x00\x00\x1c[\"checkpoint\",2,1,[[0,0]],1]\x00\x00\x00\x1a[[0,0],\"document\",null,[]]";

/// A record whose text is neither a checkpoint nor an entry.
pub const ABC: &[u8] = b"\x00\x00\x00\x03abc";

/// The first checkpoint, and the entries of two Joins: 115 bytes.
pub const JOINED_TWICE: &[u8] =
    b"\x00\x00\x00\x17[\"checkpoint\",2,0,[],1]\x00\x00\x00\x1a[[0,0],\"document\",null,[]]\x00\x00\x00\x19[0,0,\"join\",[\"joined\",1]]\x00\x00\x00\x19[0,0,\"join\",[\"joined\",2]]";
