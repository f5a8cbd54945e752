ghost use Rattle.std.specs.Prelude.{◌≡◌, ◌<◌, ◌≤◌, [], Some, OnOk, OnErr, IfOk, length, slice_get};
ghost use Rattle.std.specs.List.{IsDistinct};
ghost use Rattle.mon_link.specs.Clients.{KnownClients, MOST_CLIENTS, same_address, seen, stopped, unmarked};

use indexmap::IndexSet;
use mon_bytes::OutOfMemory;
use std::alloc::Global;
use std::marker::Model;
use std::net::SocketAddr;

/// How many clients are known at a time.
const MOST_CLIENTS: usize = 1024;

/// A ring of all numbers. A number gets a mark if its client is heard again. The hand goes round and takes the marks, when a
/// new client needs a number.
#[derive(Drop)]
pub struct Ring {
    marks: [bool; MOST_CLIENTS],
    hand: usize,
}

impl Ring {
    /// No number has a mark.
    fn new() -> Ring
        ensures { result ≡ unmarked }
    {
        Ring {
            marks: [false; MOST_CLIENTS],
            hand: 0,
        }
    }

    /// Moves the hand to the first number without a mark, and takes the marks of those before it. If all have one, the hand
    /// ends where it began, and no number has a mark.
    fn stop(&mut self)
        requires { self.now.hand < MOST_CLIENTS }
        ensures stopped { self.new ≡ stopped MOST_CLIENTS self.old }
        ensures within { self.new.hand < MOST_CLIENTS }
    {
        for _ in 0..MOST_CLIENTS {
            let is_marked = self.marks[self.hand];
            if !is_marked {
                return;
            }
            self.marks[self.hand] = false;
            self.hand = (self.hand + 1) % MOST_CLIENTS;
        }
    }
}

/// The addresses of 1,024 clients, each at its number. If all numbers are taken, a new client takes the one at which the hand
/// of the ring stops.
#[derive(Drop)]
pub struct Clients {
    addresses: IndexSet<SocketAddr>,
    ring: Ring,
}

impl Model for Clients {
    ghost Value = { KnownClients };

    ghost view = { λ c. record { addresses = c.addresses.keys; ring = c.ring } };

    ghost invariant = { λ c. (length c.addresses.keys ≤ MOST_CLIENTS) × (c.ring.hand < MOST_CLIENTS) × IsDistinct same_address c.addresses.keys };
}

impl Clients {
    /// No client yet.
    pub fn new(alloc: Global) -> Clients
        ensures { result ≡ record { addresses = []; ring = unmarked } }
    {
        Clients {
            addresses: IndexSet::new(alloc),
            ring: Ring::new(),
        }
    }

    /// The number of the client at an address. A client that isn't known becomes known. One that is heard again in each round
    /// of the hand keeps its number, unless all 1,024 are. If memory runs out, nobody becomes known, and nothing changes.
    pub fn number_of(&mut self, address: SocketAddr) -> Result<u32, OutOfMemory>
        ensures seen { OnOk result (self.new ≡ seen address self.old) }
        ensures number { IfOk result (λ n. slice_get self.new.addresses n ≡ Some address) }
        ensures unchanged { OnErr result (self.new ≡ self.old) }
    {
        let (number, is_new) = self.addresses.insert_full(address)?;
        if !is_new {
            self.ring.marks[number] = true;
            return Ok(number as u32);
        }
        if number < MOST_CLIENTS {
            return Ok(number as u32);
        }
        self.ring.stop();
        let free = self.ring.hand;
        let _ = self.addresses.swap_remove_index(free);
        self.ring.hand = (free + 1) % MOST_CLIENTS;
        Ok(free as u32)
    }

    /// The address of the client of a number, if it is known.
    pub fn address_of(&self, number: u32) -> Option<SocketAddr>
        ensures { result ≡ slice_get self.now.addresses number }
    {
        self.addresses.get_index(number as usize).copied()
    }
}
