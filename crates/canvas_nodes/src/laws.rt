// Laws of what a client hears.
ghost use Rattle.canvas_nodes.specs.Hears.{GoesOnByExchanges, GoesOnByJoins};

use crate::Link;

/// Whatever a link gives, a client that hears it has gone on: after each join and each exchange, and if they broke off. It does
/// nothing when it runs: call it where a proof needs the law.
pub fn every_hearing<L: Link>()
    ensures joins { GoesOnByJoins L.gives L.fails }
    ensures exchanges { GoesOnByExchanges L.gives L.fails }
{}
