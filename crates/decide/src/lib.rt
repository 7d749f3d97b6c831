// The steps of a call, decided from values alone before anything is written: nothing here writes.
#![tactic(auto)]

pub mod begin;
pub mod end;
pub mod near;
pub mod place;
pub mod slot;
pub mod status;

ghost use Rattle.std.specs.Prelude.{◌≡◌, ◌+◌, ◌%◌, ◌^◌, ◌<◌, true};
ghost use Rattle.rows.specs.One.{one};
ghost use Rattle.rules.specs.World.{with_id};
ghost use Rattle.update.specs.Update.{decide_resume};
ghost use Rattle.record.specs.World.{world_of};
ghost use Rattle.plan.specs.Packet.{resumes, old_endpoint, entry_then, going, plan_by, plan_of};
ghost use Rattle.plan.specs.Ending.{ending_of};
ghost use Rattle.plan.specs.Words.{plan_words};
ghost use Rattle.decide.specs.Ready.{Ready};
ghost use Rattle.decide.specs.Near.{ForSeen};

use crate::begin::{go_on, middle_of};
use crate::end::{close_if, decided_end, end_of, entry_ended, last_ended};
use crate::near::{Near, look};
use crate::slot::{
    current_endpoint, is_suspended, old_endpoint, slot_then, state_at, transaction_then, with_id,
};
use crate::status::{completes_by, is_last, is_new, is_success, slot_by};
use details::{Device, endpoint_details};
use endpoints::entry::load;
use endpoints::{Endpoint, Table};
use plan::{Begin, Ending, Plan};
use record::Decoder;
use transaction::payload::{extract_payload, start_pid};
use transaction::{Judged, Transaction, transaction_status};
use update::decide_resume;
use update::entry::link_entry;
use usb::fields::setup_of;

// A suspended transaction is resumed, in a row of its own.
fn resume_of(d: Decoder) -> Begin
    ensures { result ≡ going true (with_id d.counts.transactions d.transaction) decide_resume }
{
    let t = with_id(d.counts.transactions as u64, d.transaction);
    go_on(true, t, decide_resume())
}

// The row of a transaction that begins with the packet; whether that number fits is tested later.
fn next_row(d: Decoder) -> u64
    ensures { result ≡ (d.counts.transactions + one (resumes d.slot)) % 2 ^ 64 }
{
    let row = d.counts.transactions as u64;
    row.wrapping_add(u64::from(is_suspended(d.slot)))
}

// By the old transaction, resumed, its endpoint and the entry that is stored for that one; j is the packet's status. The numbers are words: whether they fit
// is tested by the tally.
fn plan_by(
    j: Judged,
    x0: usize,
    stored: Endpoint,
    t: Transaction,
    packet: &[u8],
    d: Decoder,
    near: Near,
    table: &Table,
) -> Plan
    requires ready { Ready d table.now }
    requires x0_lt_endpoints { x0 < d.counts.endpoints }
    requires transactions_bound { stored.transactions < 2 ^ 64 }
    requires groups_bound { stored.groups < 2 ^ 64 }
    ensures { ForSeen near x0 packet.now d table.now (λ w. result ≡ plan_words (plan_by d.high j x0 (entry_then d.slot stored) t packet.now w)) }
{
    let status = j.status;
    let pid = j.pid;
    let e = link_entry(is_suspended(d.slot), stored);
    let brought = extract_payload(d.high, t, pid, packet.len(), setup_of(packet));
    let ends = is_new(status) & (x0 != 0);
    let end = decided_end(ends, x0, e, brought, d.last, near.old);
    let e0 = entry_ended(ends, end, start_pid(brought.style), e);
    let last = last_ended(ends, end, x0, d.last);
    let n = next_row(d);
    let m = middle_of(status, x0, e0, pid, packet, n, brought, d, near, table);
    let closes = is_last(status) & (m.begin.transaction.endpoint != 0);
    Plan {
        resumes: is_suspended(d.slot),
        resume: resume_of(d),
        ends,
        old: x0,
        brought,
        end,
        begin: m.begin,
        closes,
        close: close_if(
            closes,
            m,
            last,
            is_success(status),
            completes_by(status, t.style),
        ),
        slot: slot_by(status, d.slot),
        reason: j.reason,
    }
}

// The steps of a packet, by what was taken of the devices for it.
pub fn plan_near(d: Decoder, near: Near, table: &Table, packet: &[u8]) -> Plan
    requires { Ready d table.now }
    ensures { ForSeen near (old_endpoint d.slot d.transaction) packet.now d table.now (λ w. result ≡ plan_words (plan_of d.high packet.now w)) }
{
    let x0 = old_endpoint(d.slot, d.transaction);
    let stored = load(table, x0);
    let t = transaction_then(d.slot, d.counts.transactions as u64, stored, d.transaction);
    let j = transaction_status(d.high, state_at(slot_then(d.slot), t), packet);
    plan_by(j, x0, stored, t, packet, d, near, table)
}

// The end of the current transaction, by an event or by finish.
pub fn plan_ending(d: Decoder, devices: [Device; 64], table: &Table) -> Ending
    requires { Ready d table.now }
    ensures { result ≡ ending_of (world_of d devices table.now) }
{
    let x = current_endpoint(d.slot, d.transaction);
    let e = load(table, x);
    let detail = endpoint_details(devices[e.device as usize], e.address);
    let end = end_of(x, e, d.transaction, detail, d.last, false, false);
    Ending {
        ends: x != 0,
        old: x,
        end,
    }
}
