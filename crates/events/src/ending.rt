// The current transaction's end by an event or by finish, on memory. It has no effect (plan, Quiet), so its entry and its update are all of it.
ghost use Rattle.std.specs.Prelude.{◌≡◌};
ghost use Rattle.plan.specs.Ending.{slot_ended};
ghost use Rattle.write.specs.Memory.{memory};
ghost use Rattle.events.specs.Ended.{Endable, ended_memory, SettlesIf, settled_memory};

use endpoints::phases::end_active;
use endpoints::{Table, entry};
use plan::Ending;
use rules::Slot;
use write::Written;

// The slot once no transaction is current.
pub fn slot_ended(slot: Slot) -> Slot
    ensures { result ≡ slot_ended slot }
{
    match slot {
        Slot::Current => Slot::Empty,
        _ => slot,
    }
}

// The transaction in row id, which began with pid, ends where the ending says so; n endpoints stand.
pub fn end_here(
    e: Ending,
    id: u64,
    pid: u8,
    d: Written,
    n: usize,
    table: &mut Table,
    groups: &mut [u64],
    statebytes: &mut [u8],
    states: &mut [u64],
    items: &mut [u64],
    links: &mut [u64],
) -> Written
    requires { Endable e n id pid (memory d table.old groups.old statebytes.old states.old items.old links.old) }
    ensures { memory result table.new groups.new statebytes.new states.new items.new links.new ≡ ended_memory e n id pid (memory d table.old groups.old statebytes.old states.old items.old links.old) }
{
    if e.ends {
        let end = e.end;
        let x = e.old;
        entry::store(table, x, end.entry);
        write_update::carry_out(
            end.update, d, n, x, id, pid, table, groups, statebytes, states, items, links,
        )
    } else {
        d
    }
}

// Where `resets` says so, the transaction ends, and then every active group, with no row.
pub fn settle(
    resets: bool,
    e: Ending,
    id: u64,
    pid: u8,
    d: Written,
    n: usize,
    table: &mut Table,
    groups: &mut [u64],
    statebytes: &mut [u8],
    states: &mut [u64],
    items: &mut [u64],
    links: &mut [u64],
) -> Written
    requires { SettlesIf resets e n id pid (memory d table.old groups.old statebytes.old states.old items.old links.old) }
    ensures { memory result table.new groups.new statebytes.new states.new items.new links.new ≡ settled_memory resets e n id pid (memory d table.old groups.old statebytes.old states.old items.old links.old) }
{
    if resets {
        let d = end_here(
            e, id, pid, d, n, table, groups, statebytes, states, items, links,
        );
        end_active(table, n);
        d
    } else {
        d
    }
}
