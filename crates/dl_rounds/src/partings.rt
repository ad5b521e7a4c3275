//! The links of clients that are gone.

ghost use Rattle.std.specs.Prelude.{◌≡◌, None, IsSome, map};
ghost use Rattle.dl_hub.specs.State.{outbox_of};
ghost use Rattle.dl_rounds.specs.Partings.{ShutsGone};
ghost use Rattle.dl_rounds.specs.Visits.{IsShut};

use dl_hub::Hub;
use dl_outside::{Link, LinkList};

/// Shuts a client's link, where the client is gone.
fn shut_if_gone<L: Link>(hub: &Hub, client: u32, link: &mut L)
    ensures open { IsSome (outbox_of hub.now client) → L.told link.new ≡ L.told link.old }
    ensures gone { outbox_of hub.now client ≡ None → IsShut (L.told link.old) (L.told link.new) }
{
    if !hub.is_open(client) {
        link.shut();
    }
}

/// Shuts the links of all clients that are gone; whoever was closed as too slow for what was admitted is. Those of open clients stand.
pub fn shut_gone<L: Link>(hub: &Hub, links: &mut LinkList<L>)
    ensures shuts { ShutsGone hub.now (map L.told links.old.links) (map L.told links.new.links) }
    ensures room { links.new.room ≡ links.old.room }
{
    for place in 0..links.len() {
        let client = place + 1;
        shut_if_gone(hub, client, links.of_mut(client));
    }
}
