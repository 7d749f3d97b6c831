// How many rows a call adds, reckoned from its steps before anything is written, so that answers 7 and 9 are exact.
#![tactic(auto)]

pub mod add;

ghost use Rattle.std.specs.Prelude.{◌≡◌, false, not, ◌+◌, ◌-◌, ◌≤◌, ◌^◌, leb};
ghost use Rattle.rows.specs.One.{one};
ghost use Rattle.group.specs.Step.{is_active};
ghost use Rattle.tally.specs.Tally.{Within, tally_act};
ghost use Rattle.event.specs.Event.{act_of};
ghost use Rattle.record.specs.Room.{most_number, numbered};
ghost use Rattle.record.specs.RoomLaws.{Numbered};
ghost use Rattle.tally.specs.Tallies.{Under, endpoints_then, tally_begin, tally_end, tally_plan, tally_ending, waiting_then, tally_rows, tally_keepalive, tally_event, add_counts, room_for, Sums};
ghost use Rattle.tally.specs.Passes.{plan_passes};

use crate::add::{Tally, tally_effect, tally_none, tally_update};
use endpoints::Phase;
use event::{Act, adds_group, adds_row};
use group::step::is_active;
use plan::{Begin, End, Ending, Plan};
use record::Counts;
use record::room::{MOST_NUMBER, fits};
use update::effect::total_passes;

// The rows of a transaction that begins, is resumed, or goes on.
pub fn tally_begin(s: Begin, endpoints: usize, t: Tally) -> Tally
    requires endpoints_bound { endpoints_then s endpoints ≤ 128 }
    requires within { Within (2 ^ 40) t }
    ensures { result ≡ tally_begin s endpoints t }
{
    let mut t = t;
    if s.row {
        t.add_transaction();
    }
    if s.device {
        t.add_device();
    }
    if s.endpoint {
        t.add_endpoint();
    }
    tally_update(s.update, endpoints + usize::from(s.endpoint), t)
}

// The rows of a transaction that ends.
pub fn tally_end(s: End, endpoints: usize, t: Tally) -> Tally
    requires endpoints_bound { endpoints ≤ 128 }
    requires within { Within (2 ^ 40) t }
    ensures { result ≡ tally_end s endpoints t }
{
    let t = tally_update(s.update, endpoints, t);
    tally_effect(s.effect, t)
}

// The rows of a packet of so many bytes, where so many endpoints stand and wait; a resume adds no endpoint.
pub fn tally_plan(p: Plan, len: usize, endpoints: usize, waiting: usize) -> Tally
    requires len_bound { len ≤ 4096 }
    requires waiting_bound { waiting ≤ 128 }
    requires endpoint_value { p.resume.endpoint ≡ false }
    requires endpoints_bound { endpoints_then p.begin endpoints ≤ 128 }
    ensures { result ≡ tally_plan p len endpoints waiting }
{
    let then = endpoints + usize::from(p.begin.endpoint);
    let mut t = tally_none(waiting);
    t.add_packet(len);
    if p.resumes {
        t = tally_begin(p.resume, endpoints, t);
    }
    if p.ends {
        t = tally_end(p.end, endpoints, t);
    }
    t = tally_begin(p.begin, endpoints, t);
    if p.closes {
        t = tally_end(p.close, then, t);
    }
    t
}

// The rows of finish, where so many endpoints stand and wait.
pub fn tally_ending(e: Ending, endpoints: usize, waiting: usize) -> Tally
    requires endpoints_bound { endpoints ≤ 128 }
    requires waiting_bound { waiting ≤ 128 }
    ensures { result ≡ tally_ending e endpoints waiting }
{
    let t = tally_none(waiting);
    if !e.ends {
        return t;
    }
    tally_end(e.end, endpoints, t)
}

// The rows of an event, behind those of its packet.
pub fn tally_act(act: Act, keepalive: bool, endpoints: usize, t: Tally) -> Tally
    requires endpoints_bound { endpoints ≤ 128 }
    requires within { Within (2 ^ 48) t }
    ensures { result ≡ tally_act (act_of act) keepalive endpoints t }
{
    let mut t = t;
    if adds_row(act) {
        t.add_transaction();
        t.add_link();
    }
    if adds_group(act, keepalive) {
        t.add_link();
        t.add_entry(endpoints);
        t.add_item();
    }
    t
}

// The rows of the event itself.
fn tally_rows(act: Act, keepalive: bool, endpoints: usize, t: Tally) -> Tally
    requires endpoints_bound { endpoints ≤ 128 }
    requires within { Within (2 ^ 40) t }
    ensures { result ≡ tally_rows (act_of act) keepalive endpoints t }
{
    let mut t = t;
    t.add_packet(0);
    t.add_event();
    tally_act(act, keepalive, endpoints, t)
}

// The rows of a keepalive, which only suspends the transaction.
pub fn tally_keepalive(act: Act, keepalive: bool, endpoints: usize, waiting: usize) -> Tally
    requires endpoints_bound { endpoints ≤ 128 }
    requires waiting_bound { waiting ≤ 128 }
    ensures { result ≡ tally_keepalive (act_of act) keepalive endpoints waiting }
{
    let t = tally_none(waiting);
    tally_rows(act, keepalive, endpoints, t)
}
// How many endpoints wait once every active group has ended, by those that wait after the transaction's end and the groups active before it.
fn waiting_then(e: Ending, waiting: usize, active: usize) -> usize
    requires waiting_bound { waiting ≤ 8192 }
    requires active_bound { active ≤ 128 }
    ensures { result ≡ waiting_then e waiting active }
{
    let all = waiting + active;
    if e.ends {
        let was = is_active(e.end.entry.phase);
        let more = all + usize::from(!e.end.update.end);
        more.saturating_sub(usize::from(was))
    } else {
        all
    }
}

// The rows of any other event: it ends the transaction, then every group; `active` were so before it.
pub fn tally_reset(e: Ending, act: Act, endpoints: usize, waiting: usize, active: usize) -> Tally
    requires endpoints_bound { endpoints ≤ 128 }
    requires waiting_bound { waiting ≤ 128 }
    requires active_bound { active ≤ 128 }
    ensures { result ≡ tally_event e (act_of act) endpoints waiting active }
{
    let mut t = tally_ending(e, endpoints, waiting);
    t.waiting = waiting_then(e, t.waiting, active);
    tally_rows(act, false, endpoints, t)
}

// The counts of the logs once these rows are added.
pub fn add_counts(n: Counts, t: Tally) -> Counts
    requires { Sums n t }
    ensures { result ≡ add_counts n t }
{
    Counts {
        bytes: n.bytes + t.bytes,
        devices: n.devices + t.devices,
        endpoints: n.endpoints + t.endpoints,
        packets: n.packets + t.packets,
        events: n.events + t.events,
        transactions: n.transactions + t.transactions,
        groups: n.groups + t.groups,
        statebytes: n.statebytes + t.statebytes,
        states: n.states + t.states,
        items: n.items + t.items,
        links: n.links + t.links,
        requests: n.requests + t.requests,
    }
}

// Whether t more rows behind number n have numbers that a row may have.
pub fn up_to(n: usize, t: usize) -> bool
    requires { n ≤ most_number }
    ensures { result ≡ leb (n + t) most_number }
{
    t <= MOST_NUMBER - n
}

// Whether these rows may be numbered behind n.
fn numbers_fit(n: Counts, t: Tally) -> bool
    requires { Numbered n }
    ensures { result ≡ numbered (add_counts n t) }
{
    up_to(n.bytes, t.bytes)
        & up_to(n.packets, t.packets)
        & up_to(n.events, t.events)
        & up_to(n.transactions, t.transactions)
        & up_to(n.groups, t.groups)
        & up_to(n.statebytes, t.statebytes)
        & up_to(n.states, t.states)
        & up_to(n.items, t.items)
        & up_to(n.links, t.links)
}

// Whether there is room for these rows: behind the rows that are held, and by their numbers, where n are numbered.
pub fn has_room_for(held: Counts, n: Counts, t: Tally, room: Counts) -> bool
    requires under { Under (2 ^ 40) held }
    requires within { Within (2 ^ 40) t }
    requires numbered { Numbered n }
    ensures { result ≡ room_for held n t room }
{
    let counts = add_counts(held, t);
    fits(counts, room) & numbers_fit(n, t)
}

// Whether a packet with these steps would take a byte total past 2^64 - 1 (answer 9).
pub fn plan_passes(p: Plan) -> bool
    ensures { result ≡ plan_passes p }
{
    p.closes & total_passes(p.close.effect, p.close.entry.total)
}
