// What a packet's status says of its transaction's end (transaction_update).
ghost use Rattle.std.specs.Prelude.{◌≡◌};
ghost use Rattle.rules.specs.Transactions.{is_retry, completes};
ghost use Rattle.plan.specs.Packet.{is_new, is_last, succeeds, completes_by, slot_after};

use crate::slot::slot_then;
use rules::Slot;
use transaction::{Status, Style};
use usb::types::COMPLETE;

pub fn is_new(status: Status) -> bool
    ensures { result ≡ is_new status }
{
    matches!(status, Status::New)
}

// Whether it ends the transaction.
pub fn is_last(status: Status) -> bool
    ensures { result ≡ is_last status }
{
    matches!(
        status,
        Status::Retry | Status::Done | Status::Fail | Status::Invalid
    )
}

// Whether with success.
pub fn is_success(status: Status) -> bool
    ensures { result ≡ succeeds status }
{
    matches!(status, Status::Retry | Status::Done)
}

fn is_retry(status: Status) -> bool
    ensures { result ≡ is_retry status }
{
    matches!(status, Status::Retry)
}

// Whether a transaction of that style is then complete: a plain one, or a complete split that is not to be tried again.
fn is_complete(style: Style, status: Status) -> bool
    ensures { result ≡ completes style status }
{
    match style {
        Style::Nothing => false,
        Style::Simple(_) => true,
        Style::Split(sc, _) | Style::Token(sc, _, _) => sc == COMPLETE && !is_retry(status),
    }
}

pub fn completes_by(status: Status, style: Style) -> bool
    ensures { result ≡ completes_by status style }
{
    match status {
        Status::Retry | Status::Done | Status::Fail => is_complete(style, status),
        _ => false,
    }
}

// What the slot is then.
pub fn slot_by(status: Status, slot: Slot) -> Slot
    ensures { result ≡ slot_after status slot }
{
    match status {
        Status::New => Slot::Current,
        Status::Continue | Status::Ambiguous => slot_then(slot),
        _ => Slot::Empty,
    }
}
