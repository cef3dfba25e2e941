// The laws of the words.
ghost use Rattle.canvas_codec.specs.Codec.{IsCodec};
ghost use Rattle.canvas_live.specs.Presence.{NoMessageIsHere, NoPlaceIsHere, here_form};
ghost use Rattle.canvas_live.specs.Word.{NoMessageIsLive, live_form};

/// The laws of places: what is written of one is read as that place, and none of its texts is a text of a message. It does nothing when it runs:
/// call it where a proof needs the laws.
pub fn every_place()
    ensures form { IsCodec live_form }
    ensures apart { NoMessageIsLive }
{}

/// The laws of what clients show of themselves: a written text is read as it was, and is no text of a message or of a place. It does nothing when it
/// runs: call it if a proof needs the laws.
pub fn every_here()
    ensures form { IsCodec here_form }
    ensures apart { NoMessageIsHere }
    ensures no_place { NoPlaceIsHere }
{}
