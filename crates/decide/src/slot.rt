// The transaction that the record holds: what it is once it is resumed, and its endpoint.
ghost use Rattle.std.specs.Prelude.{◌≡◌};
ghost use Rattle.rules.specs.World.{new_transaction, with_id};
ghost use Rattle.rules.specs.Transactions.{state_at};
ghost use Rattle.plan.specs.Packet.{resumes, slot_then, old_endpoint, transaction_then};
ghost use Rattle.plan.specs.Ending.{current_endpoint};

use details::kind;
use endpoints::Endpoint;
use rules::Slot;
use transaction::{Style, Transaction};

// Whether a suspended transaction is resumed.
pub fn is_suspended(slot: Slot) -> bool
    ensures { result ≡ resumes slot }
{
    matches!(slot, Slot::Suspended)
}

// The slot once it is resumed.
pub fn slot_then(slot: Slot) -> Slot
    ensures { result ≡ slot_then slot }
{
    match slot {
        Slot::Suspended => Slot::Current,
        _ => slot,
    }
}

// The endpoint of the transaction that is held; the event endpoint where there is none.
pub fn old_endpoint(slot: Slot, t: Transaction) -> usize
    ensures { result ≡ old_endpoint slot t }
{
    match slot {
        Slot::Empty => 0,
        Slot::Current | Slot::Suspended => t.endpoint,
    }
}

// That of the current one alone.
pub fn current_endpoint(slot: Slot, t: Transaction) -> usize
    ensures { result ≡ current_endpoint slot t }
{
    match slot {
        Slot::Current => t.endpoint,
        _ => 0,
    }
}

// The transaction in another row.
pub fn with_id(id: u64, t: Transaction) -> Transaction
    ensures { result ≡ with_id id t }
{
    Transaction { id, ..t }
}

// The transaction once it is resumed, in row id; e is the entry of its endpoint.
pub fn transaction_then(slot: Slot, id: u64, e: Endpoint, t: Transaction) -> Transaction
    ensures { result ≡ transaction_then slot id e t }
{
    if is_suspended(slot) {
        Transaction {
            id,
            linked: true,
            link: e.transactions,
            ..t
        }
    } else {
        t
    }
}

// TransactionState as transaction_start makes it.
pub fn new_transaction(style: Style, id: u64, pid: u8, endpoint: usize, kind: u8) -> Transaction
    ensures { result ≡ new_transaction style id pid endpoint kind }
{
    Transaction {
        style,
        id,
        last: pid,
        endpoint,
        kind,
        linked: false,
        link: 0,
        ready: false,
        setup: 0,
        filled: false,
        payload: 0,
    }
}

// transaction_state, with the style Nothing for None.
pub fn state_at(slot: Slot, t: Transaction) -> Transaction
    ensures { result ≡ state_at slot t }
{
    match slot {
        Slot::Current => t,
        _ => new_transaction(Style::Nothing, 0, 0, 0, kind::UNKNOWN),
    }
}
