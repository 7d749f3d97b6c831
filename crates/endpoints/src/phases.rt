// The loops over the endpoints' phases: who waits for an item, closing them, and ending all that is active.
ghost use Rattle.std.specs.Prelude.{◌≡◌, ◌+◌, ◌*◌, ◌≤◌, length, count_by};
ghost use Rattle.std.specs.List.{range_with_len};
ghost use Rattle.std.proofs.lemmas.List.Edits.{sets};
ghost use Rattle.rows.specs.Widths.{link_width};
ghost use Rattle.endpoints.specs.Each.{each, active, closing, becomes, cleared, ended};
ghost use Rattle.endpoints.specs.Word as word;
ghost use Rattle.endpoints.specs.Phases.{in_phase, waiting};

use crate::{Table, link, word};
use rows::width;

// How many of the first n endpoints have the phase of this number.
fn count_phase(table: &Table, n: usize, phase: u64) -> usize
    requires { n ≤ 128 }
    ensures { result ≡ count_by (in_phase phase table.now) (range_with_len 0 n) }
{
    (0..n)
        .filter(|i| table[*i * word::WIDTH + word::PHASE] == phase)
        .count()
}

// How many of the first n endpoints wait for an item.
#[tactic(auto, using(crate::proofs::Turns::count_range))]
pub fn count_waiting(table: &Table, n: usize) -> usize
    requires { n ≤ 128 }
    ensures { result ≡ waiting table.now n }
{
    count_phase(table, n, word::ENDED)
}

// How many of the first n endpoints have an active group.
#[tactic(auto, using(crate::proofs::Turns::count_range))]
pub fn count_active(table: &Table, n: usize) -> usize
    requires { n ≤ 128 }
    ensures { result ≡ active table.now n }
{
    count_phase(table, n, word::ACTIVE)
}

// An E link for each endpoint that waits, from link `at` on.
pub fn close_waiting(links: &mut [u64], at: usize, table: &Table, n: usize, item: u64)
    requires n_bound { n ≤ 128 }
    requires n_in_bounds { at * link_width + length (closing table.now item 0 n) ≤ length links.old }
    ensures { links.new ≡ sets links.old (at * link_width) (closing table.now item 0 n) }
{
    let mut row = at;
    for i in 0..n {
        if table[i * word::WIDTH + word::PHASE] == word::ENDED {
            rows::put(links, row * width::LINK, &[link::E, i as u64, item, 0]);
            row += 1;
        }
    }
}

// Phase p becomes phase q, any other stays.
fn change_phases(table: &mut Table, n: usize, p: u64, q: u64)
    requires { n ≤ 128 }
    ensures { table.new ≡ each word.phase (becomes p q) table.old 0 n }
{
    for i in 0..n {
        let at = i * word::WIDTH + word::PHASE;
        if table[at] == p {
            table[at] = q;
        }
    }
}

// No endpoint waits any more (add_item: ended is taken).
#[tactic(auto, unfolding(crate::specs::Each::cleared))]
pub fn clear_waiting(table: &mut Table, n: usize)
    requires { n ≤ 128 }
    ensures { table.new ≡ cleared table.old n }
{
    change_phases(table, n, word::ENDED, word::NONE);
}

// Every active group is over, early ones staying (handle_event).
#[tactic(auto, unfolding(crate::specs::Each::ended))]
pub fn end_active(table: &mut Table, n: usize)
    requires { n ≤ 128 }
    ensures { table.new ≡ ended table.old n }
{
    change_phases(table, n, word::ACTIVE, word::ENDED);
}
