// Laws of the definitions.
ghost use Rattle.canvas_etcd.specs.Laws.{EachFreshIsAsFound, EachNoteKeepsSound, EachTakeoverIsACrash};

/// A law: a shelf that was just opened is what stood in the store, no more and no less, all of it certain.
pub fn every_takeover_of_what_stands()
    ensures { EachFreshIsAsFound }
{}

/// A law: what another finds that takes the document over, at whatever moment of a shelf, is what a crash of its disk since then may
/// have left. (`EtcdShelf::store` tells that each moment of a shelf is safe.)
pub fn every_takeover_is_a_crash()
    ensures { EachTakeoverIsACrash }
{}

/// A law: a sound disk stays sound, whatever a shelf becomes that it may. So a store that notes it keeps it so.
pub fn every_note_keeps_a_shelf_sound()
    ensures { EachNoteKeepsSound }
{}
