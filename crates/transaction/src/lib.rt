// Transactions: whether the next packet begins, continues or ends one (document 000, transaction_status).
#![tactic(auto)]

pub mod payload;
mod simple;
mod split;

ghost use Rattle.std.specs.Prelude.{◌≡◌};
ghost use Rattle.transaction.specs.Status.{status_of, judged_of, transaction_status};

use usb::pid::MALFORMED;
use usb::reason::{self, NONE, Reason};

// TransactionStatus of the Rust.
#[derive(Clone, Copy)]
pub enum Status {
    New,
    Continue,
    Retry,
    Done,
    Fail,
    Ambiguous,
    Invalid,
}

// TransactionStyle of the Rust, with its None for "no transaction".
// Stays: 01 fixes this enum in the transaction; an Option of it would be a second tag to test for each packet.
#[derive(Clone, Copy)]
pub enum Style {
    Nothing,
    // The PID of the first packet.
    Simple(u8),
    // SC and the type; the token has not come.
    Split(u8, u8),
    // SC, the type and the token's PID.
    Token(u8, u8, u8),
}

// TransactionState of the Rust. Bytes and flags stand together: a byte that stands alone before a word has seven bytes of padding, which are copied by two moves that
// overlap, and the next copy waits for both (docs/SPEED.md).
#[derive(Clone, Copy)]
pub struct Transaction {
    // style.
    pub style: Style,
    // last: the PID of the last packet.
    pub last: u8,
    // id: the transaction row.
    pub id: u64,
    // endpoint_id; where there is none 0, the event endpoint, on which no transaction is.
    pub endpoint: usize,
    // endpoint_type, as it was known when the transaction began; 4 where it was not.
    pub kind: u8,
    // ep_transaction_id: link, where linked.
    pub linked: bool,
    // setup: the 8 setup bytes, first byte lowest, where ready.
    pub ready: bool,
    // payload: its length, where filled.
    pub filled: bool,
    pub link: u64,
    pub setup: u64,
    pub payload: u64,
}

// The PID of a packet, what the packet is to the transaction, and why it is malformed; 0 where it is not.
#[derive(Clone, Copy)]
pub struct Judged {
    pub pid: u8,
    pub status: Status,
    pub reason: u8,
}

// The status of a valid packet with the PID next and of len bytes; high is the mode for high-bandwidth isochronous data.
fn status_of(high: bool, t: Transaction, next: u8, len: usize) -> Status
    ensures { result ≡ status_of high t.style t next len }
{
    match t.style {
        Style::Nothing => simple::start_status(next),
        Style::Simple(first) => simple::status_in(high, first, t.last, next, t.kind, len),
        Style::Split(sc, kind) | Style::Token(sc, kind, _) => {
            split::split_status(kind, sc, t.last, next, len)
        }
    }
}

// The status of the next packet, which was checked and has len bytes.
pub fn status_by(high: bool, t: Transaction, checked: Result<u8, Reason>, len: usize) -> Judged
    ensures { result ≡ judged_of high t checked len }
{
    let Ok(next) = checked else {
        return Judged {
            pid: MALFORMED,
            status: Status::Invalid,
            reason: reason::number(checked),
        };
    };
    Judged {
        pid: next,
        status: status_of(high, t, next, len),
        reason: NONE,
    }
}

// The same of a packet, which is checked here.
pub fn transaction_status(high: bool, t: Transaction, packet: &[u8]) -> Judged
    ensures { result ≡ transaction_status high t packet.now }
{
    let checked = usb::check(packet);
    status_by(high, t, checked, packet.len())
}
