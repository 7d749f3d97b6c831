// What a call comes to, reckoned before anything is written: the counts after it, or none where its rows have no room.
ghost use Rattle.std.specs.Prelude.{◌≡◌, ◌≤◌, ◌^◌};
ghost use Rattle.tally.specs.Tally.{Within};
ghost use Rattle.tally.specs.Tallies.{Countable, tally_ending};
ghost use Rattle.event.specs.Event.{act_of};
ghost use Rattle.events.specs.After.{sum_of, event_tally};

use event::Act;
use plan::Ending;
use record::{Counts, Decoder};
use tally::add::Tally;
use tally::{add_counts, has_room_for, tally_ending, tally_keepalive, tally_reset};

// After the call.
#[derive(Clone, Copy)]
pub struct Sum {
    pub counts: Counts,
    pub waiting: usize,
}

// Of a call that adds these rows behind the rows held.
fn sum_of(held: Counts, n: Counts, t: Tally, room: Counts) -> Option<Sum>
    requires countable { Countable held n }
    requires within { Within (2 ^ 40) t }
    ensures { result ≡ sum_of held n t room }
{
    if has_room_for(held, n, t, room) {
        Some(Sum {
            counts: add_counts(n, t),
            waiting: t.waiting,
        })
    } else {
        None
    }
}

// Of finish.
pub fn sum_finish(d: Decoder, held: Counts, e: Ending, room: Counts) -> Option<Sum>
    requires waiting_bound { d.waiting ≤ 128 }
    requires endpoints_bound { d.counts.endpoints ≤ 128 }
    requires countable { Countable held d.counts }
    ensures { result ≡ sum_of held d.counts (tally_ending e d.counts.endpoints d.waiting) room }
{
    let n = d.counts;
    let t = tally_ending(e, n.endpoints, d.waiting);
    sum_of(held, n, t, room)
}

// Of an event that does this; `active` groups are so before it.
pub fn sum_event(
    resets: bool,
    d: Decoder,
    held: Counts,
    e: Ending,
    act: Act,
    active: usize,
    room: Counts,
) -> Option<Sum>
    requires waiting_bound { d.waiting ≤ 128 }
    requires endpoints_bound { d.counts.endpoints ≤ 128 }
    requires active_bound { active ≤ 128 }
    requires countable { Countable held d.counts }
    ensures { result ≡ sum_of held d.counts (event_tally resets d e (act_of act) active) room }
{
    let n = d.counts;
    if resets {
        let t = tally_reset(e, act, n.endpoints, d.waiting, active);
        sum_of(held, n, t, room)
    } else {
        let t = tally_keepalive(act, d.keepalive, n.endpoints, d.waiting);
        sum_of(held, n, t, room)
    }
}
