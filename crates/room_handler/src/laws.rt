// Laws of exchanges over a link to a seat.
ghost use Rattle.room_handler.specs.Exchanges.{ExchangesSeeOn};

use canvas_board::RoomName;

/// What a seat has seen after an exchange over a link to it goes on from what it had seen before. It does nothing when it runs: call
/// it where a proof needs the law.
pub fn every_exchange<N: RoomName>()
    ensures { ExchangesSeeOn N.opening }
{}
