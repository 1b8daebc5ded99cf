// Priority (document 01, 'The callback table'): the callbacks of each kind, and the first in priority of a mask.

#![tactic(auto)]

ghost use Rattle.std.specs.Prelude.{◌≡◌, ℕ, ◌≤◌, ◌<◌};
ghost use Rattle.masks.specs.Parts.{some_index};
ghost use Rattle.numbers.specs.Numbers.{places};
ghost use Rattle.priority.specs.Parts.{kinds_of, sort_one, foremost_in};

use masks::lowest_index;
use table::{Kind, Table};

// The slots of each kind.
#[derive(Clone, Copy, Default)]
pub struct Kinds {
    pub timers: u16,
    pub subscriptions: u16,
    pub services: u16,
    pub clients: u16,
}

// The kinds with one more slot sorted in.
fn sort_one(kinds: Kinds, kind: u8, slot: u16) -> Kinds
    requires { slot < places }
    ensures { result ≡ sort_one kinds kind slot }
{
    let mut k = kinds;
    match Kind::try_from(kind) {
        Ok(Kind::Timer) => k.timers = masks::set_slot(k.timers, slot),
        Ok(Kind::Subscription) => k.subscriptions = masks::set_slot(k.subscriptions, slot),
        Ok(Kind::Service) => k.services = masks::set_slot(k.services, slot),
        Ok(Kind::Client) => k.clients = masks::set_slot(k.clients, slot),
        Err(_) => {}
    }
    k
}

// The slots below count of each kind.
pub fn by_kind(t: Table) -> Kinds
    requires { t.count ≤ places }
    ensures { result ≡ kinds_of t }
{
    let mut k = Kinds::default();
    for (i, c) in t.callbacks[..t.count as usize].iter().enumerate() {
        k = sort_one(k, c.kind, i as u16);
    }
    k
}

// The first in priority of the slots in the mask, as an index.
pub fn foremost(k: Kinds, mask: u16) -> Option<u8>
    ensures { result ≡ some_index (foremost_in k mask) }
{
    lowest_index(k.timers & mask)
        .or(lowest_index(k.subscriptions & mask))
        .or(lowest_index(k.services & mask))
        .or(lowest_index(k.clients & mask))
}
