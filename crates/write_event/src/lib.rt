// The rows of an event on the event endpoint, once the old transaction has ended or is suspended (document 000, event_add_group and
// event_subgroup_start). The transaction row itself is the caller's.
#![tactic(auto)]

ghost use Rattle.std.specs.Prelude.{◌≡◌, ◌+◌, ◌*◌, ◌^◌, ◌<◌, ◌≤◌, length};
ghost use Rattle.rows.specs.One.{one};
ghost use Rattle.rows.specs.Widths.{link_width};
ghost use Rattle.endpoints.specs.Table.{entry_at};
ghost use Rattle.update.specs.Update.{when};
ghost use Rattle.write.specs.Memory.{Room, OnLinks, memory, link_written};
ghost use Rattle.write_event.specs.Rows.{Able, event_linked, event_grouped, event_rows};

use endpoints::entry::load;
use endpoints::{Table, link};
use write::{Written, entries, leaf};

// The event endpoint's number.
const EVENT: usize = 0;

// The T row of transaction row id. The tally's T row is the suspended transaction's, and stays.
fn link_event(on: bool, d: Written, id: u64, table: &mut Table, links: &mut [u64]) -> Written
    requires on_bound { (entry_at table.old 0).transactions + one on < 2 ^ 64 }
    requires link_width_in_bounds { (when on link_written d).links * link_width ≤ length links.old }
    ensures { OnLinks (when on (event_linked id)) d table.old links.old result table.new links.new }
{
    if on {
        entries::more_transactions(table, EVENT);
        leaf::link_row(d, link::T, EVENT, id, 0, links)
    } else {
        d
    }
}

// A G row of the last T row, a start or an end row, and an item.
fn group_event(
    on: bool,
    start: bool,
    d: Written,
    n: usize,
    table: &mut Table,
    groups: &mut [u64],
    statebytes: &mut [u8],
    states: &mut [u64],
    items: &mut [u64],
    links: &mut [u64],
) -> Written
    requires n_bound { n ≤ 128 }
    requires on_bound { (entry_at table.old 0).groups + one on < 2 ^ 64 }
    requires room { Room (when on (event_grouped n start) (memory d table.old groups.old statebytes.old states.old items.old links.old)) }
    ensures { memory result table.new groups.new statebytes.new states.new items.new links.new ≡ when on (event_grouped n start) (memory d table.old groups.old statebytes.old states.old items.old links.old) }
{
    if on {
        let e = load(table, EVENT);
        let t = leaf::last(e.transactions);
        let d = leaf::link_row(d, link::G, EVENT, t, 0, links);
        entries::more_groups(table, EVENT);
        let nth = entries::last_group(table, EVENT);
        let d = leaf::group_row(d, n, EVENT, nth, start, table, groups, statebytes, states);
        leaf::item_row(d, n, EVENT, table, items, links)
    } else {
        d
    }
}

// Where `row`, the T row of transaction row id; where `group`, a group with its start or its end, as `start` says.
pub fn event_rows(
    row: bool,
    group: bool,
    start: bool,
    d: Written,
    n: usize,
    id: u64,
    table: &mut Table,
    groups: &mut [u64],
    statebytes: &mut [u8],
    states: &mut [u64],
    items: &mut [u64],
    links: &mut [u64],
) -> Written
    requires { Able row group start n id (memory d table.old groups.old statebytes.old states.old items.old links.old) }
    ensures { memory result table.new groups.new statebytes.new states.new items.new links.new ≡ event_rows row group start n id (memory d table.old groups.old statebytes.old states.old items.old links.old) }
{
    let d = link_event(row, d, id, table, links);
    group_event(
        group, start, d, n, table, groups, statebytes, states, items, links,
    )
}
