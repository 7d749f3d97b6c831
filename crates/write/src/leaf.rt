// One row and what stands with it: a group row with its state row, an item with the ends that it closes, a link row.
ghost use Rattle.std.specs.Prelude.{◌∷◌, [], ◌≡◌, pred, ◌+◌, ◌*◌, ◌<◌, ◌≤◌, length};
ghost use Rattle.std.proofs.lemmas.List.Edits.{sets};
ghost use Rattle.rows.specs.Widths.{group_width, link_width, transaction_width};
ghost use Rattle.rows.specs.Sets.{opt};
ghost use Rattle.rules.specs.Rows.{naming, grouping, transaction_words, group_words};
ghost use Rattle.endpoints.specs.Phases.{waiting};
ghost use Rattle.endpoints.specs.Each.{closing, cleared, next_states, state_bytes};
ghost use Rattle.write.specs.Memory.{Numbers, group_written, item_written, link_written};

use crate::Written;
use endpoints::{Table, entry, phases, states};
use rows::width;
use rules::Stamp;

// The number of the last of n rows; 0 where there is none.
pub fn last(n: u64) -> u64
    ensures { result ≡ pred n }
{
    if n == 0 { 0 } else { n - 1 }
}

// add_group_entry with add_endpoint_state: the start or the end of endpoint x's group nth, with the packet and the time of the call, and the states of all n endpoints then.
pub fn group_row(
    d: Written,
    n: usize,
    x: usize,
    nth: u64,
    start: bool,
    table: &mut Table,
    groups: &mut [u64],
    statebytes: &mut [u8],
    states: &mut [u64],
) -> Written
    requires n_bound { n ≤ 128 }
    requires group_width_in_bounds { (d.groups + 1) * group_width ≤ length groups.old }
    requires n_in_bounds { d.statebytes + n ≤ length statebytes.old }
    requires states_in_bounds { d.states + 1 ≤ length states.old }
    requires numbers { Numbers d }
    ensures value { result ≡ group_written n d }
    ensures table_after { table.new ≡ next_states table.old n x start }
    ensures groups_after { groups.new ≡ sets groups.old (d.groups * group_width) (group_words (grouping x nth start d.stamp)) }
    ensures statebytes_after { statebytes.new ≡ sets statebytes.old d.statebytes (state_bytes (next_states table.old n x start) 0 n) }
    ensures states_after { states.new ≡ sets states.old d.states ((d.firsts.statebytes + d.statebytes) ∷ []) }
{
    let g = d.groups;
    let m = d.statebytes;
    let end = m + n;
    let s = d.states;
    let start_byte = d.firsts.statebytes + m as u64;
    states::add_endpoint_state(statebytes, m, table, n, x, start);
    rows::put(states, s, &[start_byte]);
    let stamp = d.stamp;
    rows::put(
        groups,
        g * width::GROUP,
        &[x as u64, nth, u64::from(start), stamp.packet, stamp.time],
    );
    let mut d = d;
    d.groups = g + 1;
    d.statebytes = end;
    d.states = s + 1;
    d
}

// A transaction row, where `on`, of the call that brings the stamp: its packet, and that one's reason. It is row n.
pub fn put_transaction(on: bool, transactions: &mut [u64], n: usize, stamp: Stamp)
    requires { n * transaction_width + length (opt on (transaction_words (naming stamp.packet stamp.reason))) ≤ length transactions.old }
    ensures { transactions.new ≡ sets transactions.old (n * transaction_width) (opt on (transaction_words (naming stamp.packet stamp.reason))) }
{
    rows::put_if(
        on,
        transactions,
        n * width::TRANSACTION,
        &[stamp.packet, stamp.reason],
    );
}

// add_item: the item of the last group row, and an E row for each endpoint that waits; then none waits any more.
pub fn item_row(
    d: Written,
    n: usize,
    x: usize,
    table: &mut Table,
    items: &mut [u64],
    links: &mut [u64],
) -> Written
    requires n_bound { n ≤ 128 }
    requires d_in_bounds { d.items + 1 ≤ length items.old }
    requires link_width_in_bounds { (d.links + waiting table.old n) * link_width ≤ length links.old }
    requires numbers { Numbers d }
    ensures value { result ≡ item_written (waiting table.old n) x d }
    ensures table_after { table.new ≡ cleared table.old n }
    ensures after { items.new ≡ sets items.old d.items (pred (d.firsts.groups + d.groups) ∷ []) }
    ensures links_after { links.new ≡ sets links.old (d.links * link_width) (closing table.old (d.firsts.items + d.items) 0 n) }
{
    let i = d.items;
    let l = d.links;
    let group = d.firsts.groups + d.groups as u64;
    let item = d.firsts.items + i as u64;
    let closes = phases::count_waiting(table, n);
    rows::put(items, i, &[last(group)]);
    phases::close_waiting(links, l, table, n, item);
    phases::clear_waiting(table, n);
    let mut d = d;
    d.items = i + 1;
    d.links = l + closes;
    d.last = x;
    d
}

// A T, G or D row of endpoint x.
pub fn link_row(d: Written, kind: u64, x: usize, a: u64, b: u64, links: &mut [u64]) -> Written
    requires { (d.links + 1) * link_width ≤ length links.old }
    ensures value { result ≡ link_written d }
    ensures links_after { links.new ≡ sets links.old (d.links * link_width) (kind ∷ x ∷ a ∷ b ∷ []) }
{
    let l = d.links;
    rows::put(links, l * width::LINK, &[kind, x as u64, a, b]);
    let mut d = d;
    d.links = l + 1;
    d
}
