// What a call does to the groups of one endpoint, decided from values alone before anything is written (document 000, from group_early_start on).
#![tactic(auto)]

pub mod effect;
pub mod entry;

ghost use Rattle.std.specs.Prelude.{◌≡◌};
ghost use Rattle.group.specs.Step.{is_active};
ghost use Rattle.rules.specs.Groups.{starts_early, undecided};
ghost use Rattle.update.specs.Update.{links, adds, starts as startsUpdate, appends as appendsUpdate, ends as endsUpdate, decide_update, early as earlyUpdate, decide_early_start, decide_early_append, decide_resume};

use endpoints::{Endpoint, Phase};
use group::GroupStatus;
use group::step::is_active;
use transaction::Transaction;
use usb::pid::{IN, MALFORMED, OUT, SETUP, SOF};

// What becomes of the endpoint's group once it has its rows.
#[derive(Clone, Copy)]
pub enum Then {
    // Nothing.
    Keep,
    // It is active, this transaction its first and its last (1046, done).
    Begin,
    // It is active and no transaction of it went well yet (1046, not done).
    BeginFailed,
    // This transaction is the last that went well (1072).
    Last,
    // It is early (923).
    BeginEarly,
}

// What is done to an endpoint, in this order; the numbers are lines of docs/src/src/decoder.rs.
#[derive(Clone, Copy)]
pub struct Update {
    // A group that is still early ends, with no row (918).
    pub over: bool,
    // The active group ends, with an end row (1105 and 1106).
    pub cut: bool,
    // The transaction gets its T row (722, 963, 1068 and 1114).
    pub link: bool,
    // A group starts: its G row, start row and item (1120 to 1123).
    pub start: bool,
    // What becomes of the group then.
    pub group: Then,
    // The active group ends, its payload cleared, with an end row (1085 to 1090).
    pub end: bool,
    // An item for that end row (1092).
    pub item: bool,
}

// Nothing is done.
pub const NO_UPDATE: Update = Update {
    over: false,
    cut: false,
    link: false,
    start: false,
    group: Then::Keep,
    end: false,
    item: false,
};

// No row but perhaps a T row.
fn linking(link: bool, group: Then) -> Update
    ensures { result ≡ links link group }
{
    Update {
        link,
        group,
        ..NO_UPDATE
    }
}

// A new group (add_group), after the end of an early one or of an active one.
fn adding(over: bool, cut: bool, linked: bool, group: Then) -> Update
    ensures { result ≡ adds over cut linked group }
{
    Update {
        over,
        cut,
        link: !linked,
        start: true,
        group,
        ..NO_UPDATE
    }
}

// group_start: an early group is taken, else one is added.
fn starts(group: Then, phase: Phase, linked: bool) -> Update
    ensures { result ≡ startsUpdate group phase linked }
{
    match phase {
        Phase::None | Phase::Ended => adding(false, false, linked, group),
        Phase::Early => linking(false, group),
        Phase::Active => adding(false, true, linked, group),
    }
}

// group_append: the active group goes on as `onward` says, else one is started.
fn appends(group: Then, onward: Then, phase: Phase, linked: bool) -> Update
    ensures { result ≡ appendsUpdate group onward phase linked }
{
    match phase {
        Phase::Active => linking(!linked, onward),
        _ => starts(group, phase, linked),
    }
}

// group_end after that; a group that started now has its item.
fn ends(same: bool, u: Update) -> Update
    ensures { result ≡ endsUpdate same u }
{
    Update {
        end: true,
        item: !u.start && !same,
        ..u
    }
}

// group_update, by what group_status says, the endpoint's phase, whether the transaction has its T row and whether the last item was this endpoint's.
pub fn decide_update(status: GroupStatus, phase: Phase, linked: bool, same: bool) -> Update
    ensures { result ≡ decide_update status phase linked same }
{
    match status {
        GroupStatus::Single => ends(same, starts(Then::Begin, phase, linked)),
        GroupStatus::New => starts(Then::Begin, phase, linked),
        GroupStatus::Continue => appends(Then::Begin, Then::Last, phase, linked),
        GroupStatus::Retry => appends(Then::BeginFailed, Then::Keep, phase, linked),
        GroupStatus::Done => ends(same, appends(Then::Begin, Then::Last, phase, linked)),
        GroupStatus::Invalid => ends(same, starts(Then::BeginFailed, phase, linked)),
    }
}

// Whether a packet with this PID starts a group early.
fn starts_early(pid: u8, phase: Phase) -> bool
    ensures { result ≡ starts_early pid phase }
{
    match pid {
        SETUP => true,
        IN | OUT | SOF | MALFORMED => !is_active(phase),
        _ => false,
    }
}

// An early group: a still early one ends first.
fn early(phase: Phase, linked: bool) -> Update
    ensures { result ≡ earlyUpdate phase linked }
{
    match phase {
        Phase::None | Phase::Ended => adding(false, false, linked, Then::BeginEarly),
        Phase::Early => adding(true, false, linked, Then::BeginEarly),
        Phase::Active => adding(false, true, linked, Then::BeginEarly),
    }
}

// group_early_start, by the PID of the transaction's first packet.
pub fn decide_early_start(pid: u8, phase: Phase, linked: bool) -> Update
    ensures { result ≡ decide_early_start pid phase linked }
{
    if starts_early(pid, phase) {
        early(phase, linked)
    } else {
        linking(false, Then::Keep)
    }
}

// Whether the active group may start and end depending on what becomes of the transaction (948).
fn is_undecided(e: Endpoint) -> bool
    ensures { result ≡ undecided e }
{
    matches!(e.first, IN | OUT) && is_active(e.phase)
}

// group_early_append, of the transaction and its endpoint's entry; a split without its token has no endpoint yet.
pub fn decide_early_append(t: Transaction, e: Endpoint) -> Update
    ensures { result ≡ decide_early_append t e }
{
    linking(t.endpoint != 0 && !is_undecided(e) && !t.linked, Then::Keep)
}

// A suspended transaction that is resumed gets a T row, also if it had one (transaction_update, 721).
pub fn decide_resume() -> Update
    ensures { result ≡ decide_resume }
{
    linking(true, Then::Keep)
}
