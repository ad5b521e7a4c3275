//! The clients that are open.

ghost use Rattle.std.specs.Prelude.{◌≡◌, count_by};
ghost use Rattle.dl_hub.specs.State.{EachHasRoom, is_open};

use dl_hub::Hub;

/// How many clients are open. It looks at these alone, however many came.
pub fn open_clients(hub: &Hub) -> u64
    ensures count { result ≡ count_by is_open hub.now.clients }
    // No outbox holds more than it can.
    ensures room { EachHasRoom 0 hub.now }
{
    let mut count = 0;
    let mut after = 0;
    while let Some(client) = hub.next_open(after) {
        let _room = hub.room(client);
        count += 1;
        after = client;
    }
    count
}
