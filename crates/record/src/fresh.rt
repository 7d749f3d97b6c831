// The record of a fresh decoder, and that of a refused one.
ghost use Rattle.std.specs.Prelude.{◌≡◌};
ghost use Rattle.record.specs.Fresh.{counts_of, no_transaction, idle_with, fresh_decoder, refused_decoder};

use crate::{Counts, Decoder, NO_ITEM};
use details::kind;
use rules::{EventState, Slot};
use transaction::{Style, Transaction};

// What stands in an empty slot.
fn no_transaction() -> Transaction
    ensures { result ≡ no_transaction }
{
    Transaction {
        style: Style::Nothing,
        id: 0,
        last: 0,
        endpoint: 0,
        kind: kind::UNKNOWN,
        linked: false,
        link: 0,
        ready: false,
        setup: 0,
        filled: false,
        payload: 0,
    }
}

fn counts_of(devices: usize, endpoints: usize) -> Counts
    ensures { result ≡ counts_of devices endpoints }
{
    Counts {
        bytes: 0,
        devices,
        endpoints,
        packets: 0,
        events: 0,
        transactions: 0,
        groups: 0,
        statebytes: 0,
        states: 0,
        items: 0,
        links: 0,
        requests: 0,
    }
}

fn idle_with(high: bool, counts: Counts) -> Decoder
    ensures { result ≡ idle_with high counts }
{
    Decoder {
        counts,
        slot: Slot::Empty,
        transaction: no_transaction(),
        last: NO_ITEM,
        event: EventState::Idle,
        keepalive: false,
        waiting: 0,
        finished: false,
        high,
        time: 0,
    }
}

// With the first device and the three special endpoints, in this mode.
pub fn fresh_decoder(high: bool) -> Decoder
    ensures { result ≡ fresh_decoder high }
{
    idle_with(high, counts_of(1, 3))
}

// Not well formed, whatever stands beside it: there is no device.
pub fn refused_decoder() -> Decoder
    ensures { result ≡ refused_decoder }
{
    idle_with(false, counts_of(0, 0))
}
