// The state row (add_endpoint_state): every endpoint's next state, and the bytes that are logged.
ghost use Rattle.std.specs.Prelude.{◌≡◌, ◌+◌, ◌≤◌, length};
ghost use Rattle.std.proofs.lemmas.List.Edits.{sets};
ghost use Rattle.endpoints.specs.States.{next_state};
ghost use Rattle.endpoints.specs.Each.{next_states, state_bytes};

use crate::{Table, word};

// EVENT_EP_ID of the Rust: the row of the event endpoint.
const EVENT: usize = 0;

fn next_state(same: bool, event: bool, start: bool, last: u8) -> u8
    ensures { result ≡ next_state same event start last }
{
    match last {
        _ if same && start => word::STARTING,
        _ if same => word::ENDING,
        word::STARTING | word::ONGOING if event => word::ENDING,
        word::STARTING | word::ONGOING => word::ONGOING,
        _ => word::IDLE,
    }
}

// A group row of `endpoint`, a start or an end: each of the first n endpoints has its next state, and the row's bytes stand from `at` on.
#[tactic(auto, unfolding(crate::specs::Each::next_states))]
pub fn add_endpoint_state(
    log: &mut [u8],
    at: usize,
    table: &mut Table,
    n: usize,
    endpoint: usize,
    start: bool,
)
    requires n_bound { n ≤ 128 }
    requires n_in_bounds { at + n ≤ length log.old }
    ensures table_after { table.new ≡ next_states table.old n endpoint start }
    ensures log_after { log.new ≡ sets log.old at (state_bytes (next_states table.old n endpoint start) 0 n) }
{
    for i in 0..n {
        let place = i * word::WIDTH + word::STATE;
        let last = (table[place] % 256) as u8;
        let state = next_state(i == endpoint, endpoint == EVENT, start, last);
        table[place] = state as u64;
        log[at + i] = state;
    }
}
