// What an event does, decided before anything is written; nothing here writes.
ghost use Rattle.std.specs.Prelude.{◌≡◌, ◌≤◌};
ghost use Rattle.rules.specs.Decoder.{suspend_at};
ghost use Rattle.event.specs.Event.{act_of};
ghost use Rattle.write_event.proofs.ActedLaws.{keepalive_after};
ghost use Rattle.write_event.specs.Rows.{starts_group};
ghost use Rattle.decide.specs.Ready.{Ready};
ghost use Rattle.record.specs.Room.{held_of};
ghost use Rattle.tally.specs.Tallies.{Countable};
ghost use Rattle.events.specs.After.{slot_after, Decides};

use crate::ending::slot_ended;
use crate::sum::{Sum, sum_event};
use decide::plan_ending;
use details::Device;
use endpoints::Table;
use endpoints::phases::count_active;
use event::{Act, LS_KEEPALIVE, Turn, event_turn};
use plan::Ending;
use record::{Counts, Decoder};
use rules::Slot;

#[derive(Clone, Copy)]
pub struct Decided {
    // Whether the transaction and every active group end; a keepalive only suspends the transaction.
    pub resets: bool,
    pub end: Ending,
    pub turn: Turn,
    // None where there is no room.
    pub sum: Option<Sum>,
}

// What suspends the current transaction drops the one that was suspended.
fn suspend(slot: Slot) -> Slot
    ensures { result ≡ suspend_at slot }
{
    match slot {
        Slot::Current => Slot::Suspended,
        _ => Slot::Empty,
    }
}

// The slot after the event.
pub fn slot_after(resets: bool, slot: Slot) -> Slot
    ensures { result ≡ slot_after resets slot }
{
    if resets {
        slot_ended(slot)
    } else {
        suspend(slot)
    }
}

// Whether the event's group has a start row; if not, it has an end row.
pub fn starts_group(act: Act) -> bool
    ensures { result ≡ starts_group (act_of act) }
{
    matches!(act, Act::Group | Act::Keepalive)
}

// Whether there is a keepalive group after the event.
pub fn keepalive_after(act: Act, keepalive: bool) -> bool
    ensures { result ≡ keepalive_after (act_of act) keepalive }
{
    matches!(act, Act::Keepalive) || keepalive
}

// An event of this kind; the logs hold the rows `held`.
pub fn decide(
    d: Decoder,
    devices: [Device; 64],
    kind: u8,
    table: &Table,
    held: Counts,
    room: Counts,
) -> Decided
    requires ready { Ready d table.now }
    requires waiting_bound { d.waiting ≤ 128 }
    requires countable { Countable held d.counts }
    requires held_value { held ≡ held_of table.now d.counts }
    ensures { Decides d devices table.now kind room result }
{
    let resets = kind != LS_KEEPALIVE;
    let end = plan_ending(d, devices, table);
    let turn = event_turn(d.event, kind);
    let active = count_active(table, d.counts.endpoints);
    let sum = sum_event(resets, d, held, end, turn.act, active, room);
    Decided {
        resets,
        end,
        turn,
        sum,
    }
}
