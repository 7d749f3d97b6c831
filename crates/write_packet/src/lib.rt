// The steps of a call (plan) carried out on memory.
#![tactic(auto)]

mod leaf;

ghost use Rattle.std.specs.Prelude.{[], ◌≡◌};
ghost use Rattle.update.specs.Update.{when};
ghost use Rattle.write_packet.specs.Desk.{desk, begun_desk, ended_desk, performed};
ghost use Rattle.write_packet.specs.Asked.{BeginsIf, EndsIf, PlanAsks, OnEnd};

use crate::leaf::{open_rows, take_effect, with_written};
use endpoints::{Table, entry};
use plan::{Begin, End, Plan};
use transaction::payload::start_pid;
use write::Written;

// How far a call has written: the rows of the logs that groups go to (write), and those of the other three that steps go to. The row of a request that completes is its caller's (shelving).
#[derive(Clone, Copy)]
pub struct Hand {
    pub written: Written,
    pub transactions: usize,
    pub devices: usize,
    pub endpoints: usize,
}

// Where on, a transaction begins, is resumed or goes on, by the call's own packet. The array of devices is its caller's.
pub fn begin_if(
    on: bool,
    s: Begin,
    h: Hand,
    table: &mut Table,
    devices: &mut [u64],
    endpoints: &mut [u64],
    transactions: &mut [u64],
    groups: &mut [u64],
    statebytes: &mut [u8],
    states: &mut [u64],
    items: &mut [u64],
    links: &mut [u64],
) -> Hand
    requires { BeginsIf on s (desk h table.old devices.old endpoints.old transactions.old groups.old statebytes.old states.old items.old links.old) }
    ensures { desk result table.new devices.new endpoints.new transactions.new groups.new statebytes.new states.new items.new links.new ≡ when on (begun_desk s) (desk h table.old devices.old endpoints.old transactions.old groups.old statebytes.old states.old items.old links.old) }
{
    if on {
        let t = s.transaction;
        let style = t.style;
        let pid = start_pid(style);
        let h = open_rows(s, h, table, devices, endpoints, transactions);
        let d = write_update::carry_out(
            s.update,
            h.written,
            h.endpoints,
            t.endpoint,
            t.id,
            pid,
            table,
            groups,
            statebytes,
            states,
            items,
            links,
        );
        with_written(h, d)
    } else {
        h
    }
}

// Where on, the transaction in row id, which began with pid, ends on endpoint x.
pub fn end_if(
    on: bool,
    x: usize,
    id: u64,
    pid: u8,
    s: End,
    h: Hand,
    table: &mut Table,
    devices: &mut [u64],
    groups: &mut [u64],
    statebytes: &mut [u8],
    states: &mut [u64],
    items: &mut [u64],
    links: &mut [u64],
) -> Hand
    requires { EndsIf on x id pid s (desk h table.old devices.old [] [] groups.old statebytes.old states.old items.old links.old) }
    ensures { OnEnd (when on (ended_desk x id pid s)) h table.old devices.old groups.old statebytes.old states.old items.old links.old result table.new devices.new groups.new statebytes.new states.new items.new links.new }
{
    if on {
        let effect = s.effect;
        entry::store(table, x, s.entry);
        let d = write_update::carry_out(
            s.update,
            h.written,
            h.endpoints,
            x,
            id,
            pid,
            table,
            groups,
            statebytes,
            states,
            items,
            links,
        );
        let h = with_written(h, d);
        take_effect(effect, x, h, table, devices, links)
    } else {
        h
    }
}

// The steps of a packet: the suspended transaction is resumed, the old one ends, a new one begins or the old one goes on, and ends.
pub fn perform(
    p: Plan,
    h: Hand,
    table: &mut Table,
    devices: &mut [u64],
    endpoints: &mut [u64],
    transactions: &mut [u64],
    groups: &mut [u64],
    statebytes: &mut [u8],
    states: &mut [u64],
    items: &mut [u64],
    links: &mut [u64],
) -> Hand
    requires { PlanAsks p (desk h table.old devices.old endpoints.old transactions.old groups.old statebytes.old states.old items.old links.old) }
    ensures { desk result table.new devices.new endpoints.new transactions.new groups.new statebytes.new states.new items.new links.new ≡ performed p (desk h table.old devices.old endpoints.old transactions.old groups.old statebytes.old states.old items.old links.old) }
{
    let b = p.brought;
    let old = b.style;
    let t = p.begin.transaction;
    let style = t.style;
    let started = start_pid(old);
    let starts = start_pid(style);
    let h = begin_if(
        p.resumes,
        p.resume,
        h,
        table,
        devices,
        endpoints,
        transactions,
        groups,
        statebytes,
        states,
        items,
        links,
    );
    let h = end_if(
        p.ends, p.old, b.id, started, p.end, h, table, devices, groups, statebytes, states, items,
        links,
    );
    let h = begin_if(
        true,
        p.begin,
        h,
        table,
        devices,
        endpoints,
        transactions,
        groups,
        statebytes,
        states,
        items,
        links,
    );
    end_if(
        p.closes, t.endpoint, t.id, starts, p.close, h, table, devices, groups, statebytes, states,
        items, links,
    )
}
