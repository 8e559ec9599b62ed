// A request or a reply, by its kind.
ghost use Rattle.std.specs.Prelude.{◌≡◌, ◌<◌};
ghost use Rattle.model.specs.Memory.{Network};
ghost use Rattle.model.specs.Calls.{receive};
ghost use Rattle.network.specs.View.{body_of};
ghost use Rattle.station.specs.Reacting.{Holds, reacts};
ghost use Rattle.station.specs.Replying.{LastRequest, Ready};

use crate::replies::on_reply;
use crate::requests::on_request;
use crate::{Holding, Reaction};
use network::{Packet, RequestNumber};

// What the receiver of p does.
pub fn react(
    p: Packet,
    held: Holding,
    number: RequestNumber,
    sought: u8,
    links: [bool; 256],
) -> Reaction
    requires { (0 < p.kind) × (p.kind < 3) × Ready p held }
    ensures { (net : Network) → Holds net p held → LastRequest net p number.0 sought → net.links ≡ links
        → reacts result p net ≡ receive p.receiver p.sender p.serial (body_of p) net }
{
    let kind = p.kind;
    if kind == 1 {
        return on_request(p, held);
    }
    on_reply(p, held, number, sought, links)
}
