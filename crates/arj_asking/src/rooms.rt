// Request numbers that are left.
ghost use Rattle.std.specs.Prelude.{◌↔◌, IsTrue};
ghost use Rattle.arj_asking.specs.Rooms.{HasRoom};

use arj_base::Uid;
use arj_commit::LAST_START;
use arj_coord::Coord;

/// Whether an action has as many request numbers left as a step of it may take.
pub fn has_room(coord: &Coord, action: Uid) -> bool
    ensures { IsTrue result ↔ HasRoom action coord.now }
{
    coord.last_request(action) <= LAST_START
}
