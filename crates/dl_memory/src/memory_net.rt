//! A net in memory.

ghost use Rattle.std.specs.Prelude.{◌≡◌, None, Some, IfOk, map};
ghost use Rattle.dl_memory.specs.Clients.{link_of};

use crate::Failing;
use crate::wire::{Manner, MemoryLink, Prepared};
use dl_bytes::{Bytes, OutOfMemory};
use dl_outside::{Accepted, ClientScript, Net, NetFault};
use std::alloc::Global;
use std::collections::VecDeque;

/// A net in memory. It never fails. Each client that is launched waits at once; its connection gives what the client
/// sends and has room for so many bytes, behaves as the next of the manners says, and plainly once they are over.
#[derive(Drop)]
pub struct MemoryNet {
    alloc: Global,
    room: usize,
    manners: VecDeque<Manner>,
    port: Option<u16>,
    launched: Vec<ClientScript>,
    waiting: VecDeque<Prepared>,
}

/// A copy of a client's script.
fn copied(alloc: Global, script: &ClientScript) -> Result<ClientScript, OutOfMemory>
    ensures { IfOk result (λ copy. copy ≡ script.now) }
{
    let sends = Vec::from_slice(alloc, script.sends.all())?;
    Ok(ClientScript {
        sends: Bytes::over(sends),
        leave: script.leave,
    })
}

impl MemoryNet {
    /// A net of connections with room for so many bytes each, and with these manners in the order of the launches.
    pub fn make(alloc: Global, room: usize, manners: VecDeque<Manner>) -> MemoryNet {
        MemoryNet {
            alloc,
            room,
            manners,
            port: None,
            launched: Vec::new(alloc),
            waiting: VecDeque::new(alloc),
        }
    }

    /// The connection of a client, with its memory taken.
    fn prepared(&mut self, script: &ClientScript) -> Result<Prepared, OutOfMemory>
        ensures port { self.new.port ≡ self.old.port }
        ensures launched { self.new.launched ≡ self.old.launched }
        ensures waiting { self.new.waiting ≡ self.old.waiting }
    {
        let manner = match self.manners.pop_front() {
            Some(manner) => manner,
            None => Manner::plain(self.alloc),
        };
        let sends = Vec::from_slice(self.alloc, script.sends.all())?;
        let taken = Vec::with_capacity(self.alloc, self.room)?;
        Ok(Prepared {
            sends,
            leave: script.leave,
            taken,
            room: self.room,
            manner,
        })
    }
}

impl Net for MemoryNet {
    type L = Failing<MemoryLink>;

    ghost told = { λ n. record {
      listens_on = Some n.port;
      launched = Some n.launched.items;
      waiting = Some (map link_of n.waiting.items);
      faults = 0;
    } };

    fn listen(&mut self, port: u16) -> Result<(), NetFault> {
        self.port = Some(port);
        Ok(())
    }

    fn launch(&mut self, script: &ClientScript) -> Result<(), NetFault> {
        let Ok(copy) = copied(self.alloc, script) else {
            return Err(NetFault::OutOfMemory);
        };
        let Ok(client) = self.prepared(script) else {
            return Err(NetFault::OutOfMemory);
        };
        if self.launched.push(copy).is_err() {
            return Err(NetFault::OutOfMemory);
        }
        if self.waiting.push_back(client).is_err() {
            self.launched.pop();
            return Err(NetFault::OutOfMemory);
        }
        Ok(())
    }

    fn accept(&mut self) -> Accepted<Failing<MemoryLink>> {
        match self.waiting.pop_front() {
            Some(client) => Accepted::Link(client.open()),
            None => Accepted::None,
        }
    }

    fn rest(&mut self) {}

    fn faults(&self) -> u64 {
        0
    }
}
