// What an update leaves of the endpoint's own entry and of the transaction, so that the next update can be decided before anything is written.
ghost use Rattle.std.specs.Prelude.{◌≡◌};
ghost use Rattle.endpoints.specs.Table.{with_phase};
ghost use Rattle.rules.specs.Groups.{close_phase, activated};
ghost use Rattle.update.specs.Update.{when};
ghost use Rattle.update.specs.Entry.{over_entry, end_entry, ended_entry, close_entry, become_entry, link_words, start_words, words_after, transaction_after};

use crate::{Then, Update};
use endpoints::entry::with_phase;
use endpoints::{Endpoint, Phase};
use transaction::Transaction;

// The states of a group row's own endpoint (01, Rules of a group).
const STARTING: u8 = 1;

const ENDING: u8 = 3;

// add_item takes an ended group.
fn close(phase: Phase) -> Phase
    ensures { result ≡ close_phase phase }
{
    match phase {
        Phase::Ended => Phase::None,
        _ => phase,
    }
}

// One T row more; whether its number fits is tested later.
pub fn link_entry(on: bool, e: Endpoint) -> Endpoint
    ensures { result ≡ link_words on e }
{
    if on {
        Endpoint {
            transactions: e.transactions.wrapping_add(1),
            ..e
        }
    } else {
        e
    }
}

fn over_entry(on: bool, e: Endpoint) -> Endpoint
    ensures { result ≡ when on over_entry e }
{
    if on { with_phase(e, Phase::Ended) } else { e }
}

fn end_entry(on: bool, e: Endpoint) -> Endpoint
    ensures { result ≡ when on end_entry e }
{
    if on {
        with_phase(Endpoint { state: ENDING, ..e }, Phase::Ended)
    } else {
        e
    }
}

fn close_entry(on: bool, e: Endpoint) -> Endpoint
    ensures { result ≡ when on close_entry e }
{
    if on { with_phase(e, close(e.phase)) } else { e }
}

// A G row, a start row and an item.
fn start_entry(on: bool, e: Endpoint) -> Endpoint
    ensures { result ≡ start_words on e }
{
    if on {
        let started = Endpoint {
            groups: e.groups.wrapping_add(1),
            state: STARTING,
            ..e
        };
        close_entry(true, started)
    } else {
        e
    }
}

// The group is taken up by a transaction with the token pid.
fn begin(done: bool, pid: u8, e: Endpoint) -> Endpoint
    ensures { result ≡ activated done pid e }
{
    let begun = Endpoint {
        first: pid,
        done,
        last: pid,
        payload: 0,
        ..e
    };
    with_phase(begun, Phase::Active)
}

fn become_entry(group: Then, pid: u8, e: Endpoint) -> Endpoint
    ensures { result ≡ become_entry group pid e }
{
    match group {
        Then::Keep => e,
        Then::Begin => begin(true, pid, e),
        Then::BeginFailed => begin(false, pid, e),
        Then::Last => Endpoint {
            done: true,
            last: pid,
            ..e
        },
        Then::BeginEarly => with_phase(e, Phase::Early),
    }
}

// group_end: the payload is cleared too.
fn ended_entry(on: bool, e: Endpoint) -> Endpoint
    ensures { result ≡ when on ended_entry e }
{
    if on {
        end_entry(true, Endpoint { payload: 0, ..e })
    } else {
        e
    }
}

// The endpoint's entry after an update by a transaction with the token pid.
pub fn entry_update(u: Update, pid: u8, e: Endpoint) -> Endpoint
    ensures { result ≡ words_after u pid e }
{
    let e = over_entry(u.over, e);
    let e = end_entry(u.cut, e);
    let e = link_entry(u.link, e);
    let e = start_entry(u.start, e);
    let e = become_entry(u.group, pid, e);
    let e = ended_entry(u.end, e);
    close_entry(u.item, e)
}

// The transaction after an update: where it is linked, under the next T number of its endpoint.
pub fn transaction_update(u: Update, t: Transaction, next: u64) -> Transaction
    ensures { result ≡ transaction_after u next t }
{
    if u.link {
        Transaction {
            linked: true,
            link: next,
            ..t
        }
    } else {
        t
    }
}
