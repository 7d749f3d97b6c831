// What a packet comes to, reckoned before anything is written: why it is refused, or the counts after it.
ghost use Rattle.std.specs.Prelude.{false, ◌≡◌, ◌≤◌};
ghost use Rattle.tally.specs.Tallies.{Countable};
ghost use Rattle.packet.specs.After.{sum_dropped, sum_plan};

use plan::Plan;
use record::{Counts, Decoder};
use tally::add::tally_none;
use tally::{add_counts, has_room_for, plan_passes, tally_plan};

// How many endpoints there may be, whatever the room.
const MOST_ENDPOINTS: usize = 128;

// Why a packet is refused, with the answers of 01's table.
#[derive(Clone, Copy, PartialEq, Eq)]
pub enum Refusal {
    NoRoom = 7,
    // A byte total would pass 2^64 - 1.
    Total = 9,
}

// After the packet.
#[derive(Clone, Copy)]
pub struct Sum {
    pub counts: Counts,
    pub waiting: usize,
}

// The packet that drops the suspended transaction: its own rows. The logs hold the rows `held`.
pub fn sum_dropped(d: Decoder, held: Counts, len: usize, room: Counts) -> Result<Sum, Refusal>
    requires len_bound { len ≤ 4096 }
    requires waiting_bound { d.waiting ≤ 128 }
    requires countable { Countable held d.counts }
    ensures { result ≡ sum_dropped d held len room }
{
    let n = d.counts;
    let mut t = tally_none(d.waiting);
    t.add_packet(len);
    if !has_room_for(held, n, t, room) {
        return Err(Refusal::NoRoom);
    }
    Ok(Sum {
        counts: add_counts(n, t),
        waiting: t.waiting,
    })
}

// Any other, by its steps.
pub fn sum_plan(
    d: Decoder,
    held: Counts,
    plan: Plan,
    len: usize,
    room: Counts,
) -> Result<Sum, Refusal>
    requires len_bound { len ≤ 4096 }
    requires waiting_bound { d.waiting ≤ 128 }
    requires countable { Countable held d.counts }
    requires endpoints_bound { d.counts.endpoints ≤ 128 }
    requires endpoint_value { plan.resume.endpoint ≡ false }
    ensures { result ≡ sum_plan d held plan len room }
{
    let n = d.counts;
    if plan.begin.endpoint & (n.endpoints == MOST_ENDPOINTS) {
        return Err(Refusal::NoRoom);
    }
    let t = tally_plan(plan, len, n.endpoints, d.waiting);
    if !has_room_for(held, n, t, room) {
        return Err(Refusal::NoRoom);
    }
    if plan_passes(plan) {
        return Err(Refusal::Total);
    }
    Ok(Sum {
        counts: add_counts(n, t),
        waiting: t.waiting,
    })
}
