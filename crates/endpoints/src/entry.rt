// The endpoint table: a row of words for each of 128 endpoints, lent as one array.
ghost use Rattle.std.specs.Prelude.{◌≡◌, ◌<◌};
ghost use Rattle.endpoints.specs.Table.{phase_of, entry_at, store_at, with_phase, new_endpoint};

use crate::{Endpoint, Phase, Table, word};

fn phase_of(word: u64) -> Phase
    ensures { result ≡ phase_of word }
{
    match word {
        word::EARLY => Phase::Early,
        word::ACTIVE => Phase::Active,
        word::ENDED => Phase::Ended,
        _ => Phase::None,
    }
}

#[tactic(auto, unfolding(crate::specs::Table::entry_at))]
pub fn load(table: &Table, i: usize) -> Endpoint
    requires { i < 128 }
    ensures { result ≡ entry_at table.now i }
{
    let at = i * word::WIDTH;
    Endpoint {
        device: table[at + word::DEVICE],
        address: (table[at + word::ADDRESS] % 256) as u8,
        phase: phase_of(table[at + word::PHASE]),
        state: (table[at + word::STATE] % 256) as u8,
        transactions: table[at + word::TRANSACTIONS],
        groups: table[at + word::GROUPS],
        total: table[at + word::TOTAL],
        first: (table[at + word::FIRST] % 256) as u8,
        done: table[at + word::DONE] != 0,
        last: (table[at + word::LAST] % 256) as u8,
        success: table[at + word::SUCCESS] != 0,
        ready: table[at + word::READY] != 0,
        setup: table[at + word::SETUP],
        payload: table[at + word::PAYLOAD],
        pending: table[at + word::PENDING] != 0,
        pendinglength: table[at + word::PENDINGLENGTH],
        pendinglink: table[at + word::PENDINGLINK],
    }
}

#[tactic(auto, unfolding(crate::specs::Table::store_at))]
pub fn store(table: &mut Table, i: usize, e: Endpoint)
    requires { i < 128 }
    ensures { table.new ≡ store_at table.old i e }
{
    let at = i * word::WIDTH;
    table[at + word::DEVICE] = e.device;
    table[at + word::ADDRESS] = e.address as u64;
    table[at + word::PHASE] = e.phase as u64;
    table[at + word::STATE] = e.state as u64;
    table[at + word::TRANSACTIONS] = e.transactions;
    table[at + word::GROUPS] = e.groups;
    table[at + word::TOTAL] = e.total;
    table[at + word::FIRST] = e.first as u64;
    table[at + word::DONE] = u64::from(e.done);
    table[at + word::LAST] = e.last as u64;
    table[at + word::SUCCESS] = u64::from(e.success);
    table[at + word::READY] = u64::from(e.ready);
    table[at + word::SETUP] = e.setup;
    table[at + word::PAYLOAD] = e.payload;
    table[at + word::PENDING] = u64::from(e.pending);
    table[at + word::PENDINGLENGTH] = e.pendinglength;
    table[at + word::PENDINGLINK] = e.pendinglink;
}

// EndpointData::new.
pub fn new_endpoint(device: u64, address: u8) -> Endpoint
    ensures { result ≡ new_endpoint device address }
{
    Endpoint {
        device,
        address,
        ..Endpoint::default()
    }
}

pub fn with_phase(e: Endpoint, phase: Phase) -> Endpoint
    ensures { result ≡ with_phase phase e }
{
    Endpoint { phase, ..e }
}
