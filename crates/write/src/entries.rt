// An endpoint's entry changed in the table: each function loads it, changes what its name says, and stores it.
ghost use Rattle.std.specs.Prelude.{◌≡◌, ◌+◌, ◌^◌, ◌<◌};
ghost use Rattle.endpoints.specs.Table.{entry_at, with_phase};
ghost use Rattle.rules.specs.World.{more_transactions, more_groups, with_last, cleared};
ghost use Rattle.rules.specs.Groups.{activated};
ghost use Rattle.write.specs.Memory.{alter, last_number};

use endpoints::entry::{load, store, with_phase};
use endpoints::{Endpoint, Phase, Table};

// The number of the endpoint's last group.
pub fn last_group(table: &Table, x: usize) -> u64
    requires { x < 128 }
    ensures { result ≡ last_number x table.now }
{
    let e = load(table, x);
    crate::leaf::last(e.groups)
}

pub fn set_phase(table: &mut Table, x: usize, phase: Phase)
    requires { x < 128 }
    ensures { table.new ≡ alter x (with_phase phase) table.old }
{
    let e = with_phase(load(table, x), phase);
    store(table, x, e);
}

// One more T row.
pub fn more_transactions(table: &mut Table, x: usize)
    requires x_bound { x < 128 }
    requires x_bound_2 { (entry_at table.old x).transactions + 1 < 2 ^ 64 }
    ensures { table.new ≡ alter x more_transactions table.old }
{
    let mut e = load(table, x);
    let n = e.transactions;
    e.transactions = n + 1;
    store(table, x, e);
}

// One more G row.
pub fn more_groups(table: &mut Table, x: usize)
    requires x_bound { x < 128 }
    requires x_bound_2 { (entry_at table.old x).groups + 1 < 2 ^ 64 }
    ensures { table.new ≡ alter x more_groups table.old }
{
    let mut e = load(table, x);
    let n = e.groups;
    e.groups = n + 1;
    store(table, x, e);
}

// payload.clear()
pub fn clear_payload(table: &mut Table, x: usize)
    requires { x < 128 }
    ensures { table.new ≡ alter x cleared table.old }
{
    let mut e = load(table, x);
    e.payload = 0;
    store(table, x, e);
}

// The last transaction of the active group that went well began with this PID.
pub fn set_last(table: &mut Table, x: usize, pid: u8)
    requires { x < 128 }
    ensures { table.new ≡ alter x (with_last pid) table.old }
{
    let mut e = load(table, x);
    e.done = true;
    e.last = pid;
    store(table, x, e);
}

// The group is active, and its payload empty.
pub fn activate(table: &mut Table, x: usize, done: bool, pid: u8)
    requires { x < 128 }
    ensures { table.new ≡ alter x (activated done pid) table.old }
{
    let mut e = with_phase(load(table, x), Phase::Active);
    e.first = pid;
    e.done = done;
    e.last = pid;
    e.payload = 0;
    store(table, x, e);
}
