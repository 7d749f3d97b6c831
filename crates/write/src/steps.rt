// The steps of an update, each taken where its flag says so and otherwise not. What a log that is not lent holds is any list.
ghost use Rattle.std.specs.Prelude.{◌≡◌, ◌+◌, ◌*◌, ◌^◌, ◌<◌, ◌≤◌, length};
ghost use Rattle.rows.specs.Widths.{group_width, link_width};
ghost use Rattle.rows.specs.One.{one};
ghost use Rattle.endpoints.specs.Phases.{waiting};
ghost use Rattle.endpoints.specs.Table.{entry_at, with_phase};
ghost use Rattle.endpoints.specs.declared.Phase.TheVariants.{Ended};
ghost use Rattle.rules.specs.World.{cleared};
ghost use Rattle.update.specs.Update.{when};
ghost use Rattle.write.specs.Memory.{Room, Numbers, OnGroups, OnItems, OnLinks, memory, alter, group_written, item_written, link_written, end_row, link_step, start_group, item_row, tied};

use crate::leaf::{group_row, item_row, link_row};
use crate::{Written, entries};
use endpoints::entry::load;
use endpoints::{Phase, Table, link};

// ended = Some(..), with no row.
pub fn over_if(on: bool, x: usize, table: &mut Table)
    requires { x < 128 }
    ensures { table.new ≡ when on (alter x (with_phase Ended)) table.old }
{
    if on {
        entries::set_phase(table, x, Phase::Ended);
    }
}

// payload.clear()
pub fn clear_if(on: bool, x: usize, table: &mut Table)
    requires { x < 128 }
    ensures { table.new ≡ when on (alter x cleared) table.old }
{
    if on {
        entries::clear_payload(table, x);
    }
}

// A group's end, and its end row.
pub fn end_row_if(
    on: bool,
    d: Written,
    n: usize,
    x: usize,
    table: &mut Table,
    groups: &mut [u64],
    statebytes: &mut [u8],
    states: &mut [u64],
) -> Written
    requires n_bound { n ≤ 128 }
    requires x_bound { x < 128 }
    requires group_width_in_bounds { (when on (group_written n) d).groups * group_width ≤ length groups.old }
    requires d_in_bounds { (when on (group_written n) d).statebytes ≤ length statebytes.old }
    requires d_in_bounds_2 { (when on (group_written n) d).states ≤ length states.old }
    requires numbers { Numbers d }
    ensures { OnGroups (when on (end_row n x)) d table.old groups.old statebytes.old states.old result table.new groups.new statebytes.new states.new }
{
    if on {
        entries::set_phase(table, x, Phase::Ended);
        let nth = entries::last_group(table, x);
        group_row(d, n, x, nth, false, table, groups, statebytes, states)
    } else {
        d
    }
}

// An item.
pub fn item_if(
    on: bool,
    d: Written,
    n: usize,
    x: usize,
    table: &mut Table,
    items: &mut [u64],
    links: &mut [u64],
) -> Written
    requires n_bound { n ≤ 128 }
    requires d_in_bounds { (when on (item_written (waiting table.old n) x) d).items ≤ length items.old }
    requires link_width_in_bounds { (when on (item_written (waiting table.old n) x) d).links * link_width ≤ length links.old }
    requires numbers { Numbers d }
    ensures { OnItems (when on (item_row n x)) d table.old items.old links.old result table.new items.new links.new }
{
    if on {
        item_row(d, n, x, table, items, links)
    } else {
        d
    }
}

// ep_transaction_id = Some(i)
fn tie(d: Written, i: u64) -> Written
    ensures { result ≡ tied i d }
{
    let mut d = d;
    d.linked = true;
    d.link = i;
    d
}

// The T row of transaction id.
pub fn link_if(
    on: bool,
    d: Written,
    x: usize,
    id: u64,
    table: &mut Table,
    links: &mut [u64],
) -> Written
    requires x_bound { x < 128 }
    requires on_bound { (entry_at table.old x).transactions + one on < 2 ^ 64 }
    requires link_width_in_bounds { (when on link_written d).links * link_width ≤ length links.old }
    ensures { OnLinks (when on (link_step x id)) d table.old links.old result table.new links.new }
{
    if on {
        let e = load(table, x);
        let d = link_row(d, link::T, x, id, 0, links);
        entries::more_transactions(table, x);
        tie(d, e.transactions)
    } else {
        d
    }
}

// A G row, a start row and an item.
pub fn start_if(
    on: bool,
    d: Written,
    n: usize,
    x: usize,
    table: &mut Table,
    groups: &mut [u64],
    statebytes: &mut [u8],
    states: &mut [u64],
    items: &mut [u64],
    links: &mut [u64],
) -> Written
    requires n_bound { n ≤ 128 }
    requires x_bound { x < 128 }
    requires on_bound { (entry_at table.old x).groups + one on < 2 ^ 64 }
    requires room { Room (when on (start_group n x) (memory d table.old groups.old statebytes.old states.old items.old links.old)) }
    ensures { memory result table.new groups.new statebytes.new states.new items.new links.new ≡ when on (start_group n x) (memory d table.old groups.old statebytes.old states.old items.old links.old) }
{
    if on {
        let d = link_row(d, link::G, x, d.link, 0, links);
        entries::more_groups(table, x);
        let nth = entries::last_group(table, x);
        let d = group_row(d, n, x, nth, true, table, groups, statebytes, states);
        item_row(d, n, x, table, items, links)
    } else {
        d
    }
}
