// An update carried out on memory: its steps in the order of `act` (update).
#![tactic(auto)]

ghost use Rattle.std.specs.Prelude.{◌≡◌, ◌+◌, ◌^◌, ◌<◌, ◌≤◌};
ghost use Rattle.rows.specs.One.{one};
ghost use Rattle.endpoints.specs.Table.{entry_at};
ghost use Rattle.write.specs.Memory.{Room, OnTable, memory};
ghost use Rattle.write_update.specs.Carried.{become, opened, closed, carried};

use endpoints::{Phase, Table};
use update::{Then, Update};
use write::{Written, entries, steps};

// What becomes of the group, of a transaction that began with this PID.
fn set_group(group: Then, x: usize, pid: u8, table: &mut Table)
    requires { x < 128 }
    ensures { OnTable (become group x pid) table.old table.new }
{
    match group {
        Then::Keep => {}
        Then::Begin => entries::activate(table, x, true, pid),
        Then::BeginFailed => entries::activate(table, x, false, pid),
        Then::Last => entries::set_last(table, x, pid),
        Then::BeginEarly => entries::set_phase(table, x, Phase::Early),
    }
}

// Up to the group's start: the end of an early or an active group, the T row, and a G row with its start row and its item.
fn open_group(
    u: Update,
    d: Written,
    n: usize,
    x: usize,
    id: u64,
    table: &mut Table,
    groups: &mut [u64],
    statebytes: &mut [u8],
    states: &mut [u64],
    items: &mut [u64],
    links: &mut [u64],
) -> Written
    requires n_bound { n ≤ 128 }
    requires x_lt_n { x < n }
    requires link_bound { (entry_at table.old x).transactions + one u.link < 2 ^ 64 }
    requires start_bound { (entry_at table.old x).groups + one u.start < 2 ^ 64 }
    requires room { Room (opened u n x id (memory d table.old groups.old statebytes.old states.old items.old links.old)) }
    ensures { memory result table.new groups.new statebytes.new states.new items.new links.new ≡ opened u n x id (memory d table.old groups.old statebytes.old states.old items.old links.old) }
{
    steps::over_if(u.over, x, table);
    let d = steps::end_row_if(u.cut, d, n, x, table, groups, statebytes, states);
    let d = steps::link_if(u.link, d, x, id, table, links);
    steps::start_if(
        u.start, d, n, x, table, groups, statebytes, states, items, links,
    )
}

// From then on: what becomes of the group, its end with an end row, and an item for that.
fn close_group(
    u: Update,
    d: Written,
    n: usize,
    x: usize,
    pid: u8,
    table: &mut Table,
    groups: &mut [u64],
    statebytes: &mut [u8],
    states: &mut [u64],
    items: &mut [u64],
    links: &mut [u64],
) -> Written
    requires n_bound { n ≤ 128 }
    requires x_lt_n { x < n }
    requires room { Room (closed u n x pid (memory d table.old groups.old statebytes.old states.old items.old links.old)) }
    ensures { memory result table.new groups.new statebytes.new states.new items.new links.new ≡ closed u n x pid (memory d table.old groups.old statebytes.old states.old items.old links.old) }
{
    let group = u.group;
    set_group(group, x, pid, table);
    steps::clear_if(u.end, x, table);
    let d = steps::end_row_if(u.end, d, n, x, table, groups, statebytes, states);
    steps::item_if(u.item, d, n, x, table, items, links)
}

// An update of endpoint x, one of n, by the transaction in row id that began with pid.
pub fn carry_out(
    u: Update,
    d: Written,
    n: usize,
    x: usize,
    id: u64,
    pid: u8,
    table: &mut Table,
    groups: &mut [u64],
    statebytes: &mut [u8],
    states: &mut [u64],
    items: &mut [u64],
    links: &mut [u64],
) -> Written
    requires n_bound { n ≤ 128 }
    requires x_lt_n { x < n }
    requires link_bound { (entry_at table.old x).transactions + one u.link < 2 ^ 64 }
    requires start_bound { (entry_at table.old x).groups + one u.start < 2 ^ 64 }
    requires room { Room (carried u n x id pid (memory d table.old groups.old statebytes.old states.old items.old links.old)) }
    ensures { memory result table.new groups.new statebytes.new states.new items.new links.new ≡ carried u n x id pid (memory d table.old groups.old statebytes.old states.old items.old links.old) }
{
    let d = open_group(
        u, d, n, x, id, table, groups, statebytes, states, items, links,
    );
    close_group(
        u, d, n, x, pid, table, groups, statebytes, states, items, links,
    )
}
