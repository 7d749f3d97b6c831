// The shape of a packet, decided from values alone: nothing here writes. A function here is called from one place, so that the compiler inlines it and no
// struct is copied.
ghost use Rattle.std.specs.Prelude.{true, ◌≡◌, ◌<◌};
ghost use Rattle.endpoints.specs.Table.{entry_at};
ghost use Rattle.transaction.specs.Status.{judged, transaction_status};
ghost use Rattle.transaction.specs.declared.Status.TheVariants.{New};
ghost use Rattle.rules.specs.Transactions.{is_kept, state_at};
ghost use Rattle.rules.specs.World.{framing_ep};
ghost use Rattle.plan.specs.Packet.{old_endpoint, plan_of};
ghost use Rattle.decide.specs.Near.{ForSeen};
ghost use Rattle.decide.specs.Ready.{Ready};
ghost use Rattle.quick.specs.Shaped.{no_shape, begin_shape, close_shape, next_shape, brought_to, rests_on, is_free, is_plain, Shaped};

use decide::begin::{type_by, with_pid};
use decide::near::Near;
use decide::place::{detail_by, find_place};
use decide::slot::{new_transaction, old_endpoint, state_at};
use decide::status::is_new;
use details::{Detail, kind};
use endpoints::Table;
use endpoints::entry::load;
use group::step::is_active;
use record::Decoder;
use rules::Slot;
use shelving::is_kept;
use transaction::payload::{extract_payload, start_pid};
use transaction::{Status, Style, Transaction, status_by};
use update::{decide_early_append, decide_early_start};
use usb::fields::setup_of;
use usb::pid::{MALFORMED, SOF, SPLIT};

// FRAMING_EP_ID of the Rust.
const FRAMING_EP_ID: usize = 2;

// How a packet is taken; where neither `begins` nor `closes` is set, it has to have a plan.
#[derive(Clone, Copy)]
pub struct Shape {
    // Begin-only, with a transaction row and a T row where these say so.
    pub begins: bool,
    pub row: bool,
    pub link: bool,
    // Close-only, with success or without.
    pub closes: bool,
    pub success: bool,
    // The transaction then.
    pub transaction: Transaction,
}

fn no_shape(t: Transaction) -> Shape
    ensures { result ≡ no_shape t }
{
    Shape {
        begins: false,
        row: false,
        link: false,
        closes: false, // Nothing ends.
        success: false,
        transaction: t,
    }
}

fn begin_shape(row: bool, link: bool, t: Transaction) -> Shape
    ensures { result ≡ begin_shape row link t }
{
    Shape {
        begins: true,
        row,
        link,
        closes: false,
        success: false,
        transaction: t,
    }
}

fn close_shape(success: bool, x: usize, t: Transaction) -> Shape
    ensures { result ≡ close_shape success x t }
{
    Shape {
        begins: false,
        row: false,
        link: false,
        closes: x != 0,
        success,
        transaction: t,
    }
}

// A token with nothing to do before it, on an endpoint that is there and where no group starts early; x0 is the endpoint of the old transaction.
fn token_shape(x0: usize, pid: u8, packet: &[u8], d: Decoder, near: Near, table: &Table) -> Shape
    requires ready { Ready d table.now }
    requires x0_value { x0 ≡ old_endpoint d.slot d.transaction }
    requires framing_ep_value { is_free d.slot d.transaction near.old (entry_at table.now framing_ep) ≡ true }
    requires packet_value { transaction_status d.high (state_at d.slot d.transaction) packet.now ≡ judged pid New }
    ensures { ForSeen near (old_endpoint d.slot d.transaction) packet.now d table.now (λ w. Shaped d.high result (plan_of d.high packet.now w) w) }
{
    let t = d.transaction;
    if (pid == MALFORMED) | (pid == SPLIT) {
        return no_shape(t);
    }
    let found = find_place(pid, packet, d, near, table);
    let Some(i) = found else {
        return no_shape(t);
    };
    // The details, and the entry.
    let detail = detail_by(pid, near);
    let e = load(table, i);
    let early = decide_early_start(pid, e.phase, false);
    if early.start | (i == x0) {
        return no_shape(t);
    }
    let row = d.counts.transactions as u64;
    let kind = type_by(detail.kind);
    let t = new_transaction(Style::Simple(pid), row, pid, i, kind);
    let append = decide_early_append(t, e);
    begin_shape(true, append.link, t)
}

// A packet behind others of a plain transaction on endpoint x, by its status; t is the transaction with what it brought.
fn next_shape(status: Status, x: usize, t: Transaction, table: &Table) -> Shape
    requires { x < 128 }
    ensures { result ≡ next_shape status x (entry_at table.now x) t }
{
    match status {
        Status::New | Status::Invalid => no_shape(t),
        Status::Continue => {
            let e = load(table, x);
            let append = decide_early_append(t, e);
            begin_shape(false, append.link, t)
        }
        Status::Retry | Status::Done => close_shape(true, x, t),
        Status::Fail => close_shape(false, x, t),
        Status::Ambiguous => begin_shape(false, false, t),
    }
}

// The transaction with what the packet brings to it.
fn brought_to(high: bool, t: Transaction, pid: u8, packet: &[u8]) -> Transaction
    ensures { result ≡ brought_to high t pid packet.now }
{
    with_pid(
        pid,
        extract_payload(high, t, pid, packet.len(), setup_of(packet)),
    )
}

// Whether the packet's payload is to be laid by, which has to have a plan: t is the transaction with what it brought, on endpoint x.
fn lays(high: bool, x: usize, t: Transaction, table: &Table) -> bool
    requires { x < 128 }
    ensures { result ≡ is_kept high t (entry_at table.now x) t.last }
{
    let e = load(table, x);
    is_kept(high, t, e, t.last)
}

// Whether a plain transaction is current; a suspended one is resumed first.
fn is_plain(slot: Slot, style: Style) -> bool
    ensures { result ≡ is_plain slot style }
{
    matches!(slot, Slot::Current) && matches!(style, Style::Simple(_))
}

// Whether the old transaction is a SOF whose end changes no word; old is what is known of its endpoint.
fn rests(t: Transaction, old: Detail, table: &Table) -> bool
    ensures { result ≡ rests_on t old (entry_at table.now framing_ep) }
{
    let token = start_pid(t.style);
    let e = load(table, FRAMING_EP_ID);
    let active = is_active(e.phase);
    (t.endpoint == FRAMING_EP_ID)
        & ((token == SOF)
            & (t.linked
                & (active
                    & (e.done & ((e.last == SOF) & (!e.pending & (old.kind == kind::FRAMING)))))))
}

// Whether a token has nothing to do before it.
fn is_free(slot: Slot, t: Transaction, old: Detail, table: &Table) -> bool
    ensures { result ≡ is_free slot t old (entry_at table.now framing_ep) }
{
    match slot {
        Slot::Empty => true,
        Slot::Current => rests(t, old, table),
        Slot::Suspended => false,
    }
}

// By the slot, and by what the packet is to the transaction there.
pub fn shape_of(d: Decoder, near: Near, table: &Table, packet: &[u8]) -> Shape
    requires { Ready d table.now }
    ensures { ForSeen near (old_endpoint d.slot d.transaction) packet.now d table.now (λ w. Shaped d.high result (plan_of d.high packet.now w) w) }
{
    let t = d.transaction;
    // By itself: handed on to be checked below another call, the packet's slice is stored by two words and loaded as one, and the load waits (docs/SPEED.md).
    let checked = usb::check(packet);
    let j = status_by(d.high, state_at(d.slot, t), checked, packet.len());
    let status = j.status;
    let pid = j.pid;
    let x0 = old_endpoint(d.slot, t);
    if is_new(status) & is_free(d.slot, t, near.old, table) {
        return token_shape(x0, pid, packet, d, near, table);
    }
    if !is_plain(d.slot, t.style) {
        return no_shape(t);
    }
    let x = t.endpoint;
    let next = brought_to(d.high, t, pid, packet);
    if lays(d.high, x, next, table) {
        return no_shape(next);
    }
    next_shape(status, x, next, table)
}
