// A transaction that begins or goes on (transaction_start and transaction_append).
ghost use Rattle.std.specs.Prelude.{◌≡◌, ◌<◌};
ghost use Rattle.endpoints.specs.Table.{entry_at};
ghost use Rattle.rules.specs.World.{with_pid, with_token};
ghost use Rattle.plan.specs.Packet.{none, going, start_by, update_for, type_by, start_on, start_split, start_plain, starting, typed_detail, with_token_on, appending, middle_of};
ghost use Rattle.decide.specs.Ready.{Ready};
ghost use Rattle.decide.specs.Near.{ForSeen, standing_on, going_by};

use crate::near::Near;
use crate::place::{INVALID_EP_ID, packet_endpoint, stand_at};
use crate::slot::new_transaction;
use details::{Detail, kind};
use endpoints::{Endpoint, Table};
use plan::{Begin, Middle, Place};
use record::Decoder;
use transaction::{Status, Style, Transaction};
use update::{NO_UPDATE, Update, decide_early_append, decide_early_start};
use usb::fields::{split_kind, split_sc, token_of};
use usb::pid::{MALFORMED, SPLIT};

pub fn no_update() -> Update
    ensures { result ≡ none }
{
    NO_UPDATE
}

// A step with no new endpoint.
pub fn go_on(row: bool, transaction: Transaction, update: Update) -> Begin
    ensures { result ≡ going row transaction update }
{
    Begin {
        row,
        device: false,
        endpoint: false,
        types: false,
        owner: 0,
        place: 0,
        number: 0,
        kind: 0,
        transaction,
        update,
    }
}

// Where no group starts early, the transaction may still be appended to one (group_early_append).
fn start_by(u: Update, t: Transaction, e: Endpoint) -> Update
    ensures { result ≡ start_by u t e }
{
    if u.start {
        u
    } else {
        decide_early_append(t, e)
    }
}

// What the transaction does to its endpoint, by its status and the endpoint's entry.
fn update_for(status: Status, pid: u8, t: Transaction, e: Endpoint) -> Update
    ensures { result ≡ update_for status pid t e }
{
    match status {
        Status::New => start_by(decide_early_start(pid, e.phase, false), t, e),
        Status::Continue => decide_early_append(t, e),
        Status::Invalid => decide_early_start(pid, e.phase, false),
        Status::Retry | Status::Done | Status::Fail | Status::Ambiguous => no_update(),
    }
}

// A kind that is none of the four types is unknown.
pub fn type_by(kind: u8) -> u8
    ensures { result ≡ type_by kind }
{
    if kind < kind::UNKNOWN {
        kind
    } else {
        kind::UNKNOWN
    }
}

// A plain transaction in row n, on the endpoint p.
fn start_on(status: Status, p: Place, kind: u8, owner: u8, pid: u8, n: u64) -> Middle
    ensures { result ≡ start_on status p kind owner pid n }
{
    let t = new_transaction(Style::Simple(pid), n, pid, p.x, kind);
    let update = update_for(status, pid, t, p.entry);
    let begin = Begin {
        row: true,
        device: p.device,
        endpoint: p.new,
        types: false,
        owner,
        place: p.place,
        number: p.number,
        kind: 0,
        transaction: t,
        update,
    };
    Middle {
        begin,
        entry: p.entry,
        detail: p.detail,
    }
}

// A split, whose token is still to come; p is not used by it.
fn start_split(packet: &[u8], pid: u8, n: u64, p: Place) -> Middle
    ensures { result ≡ start_split packet.now pid n p }
{
    let sc = split_sc(packet);
    let kind = split_kind(packet);
    let t = new_transaction(Style::Split(sc, kind), n, pid, 0, kind);
    let begin = go_on(true, t, no_update());
    Middle {
        begin,
        entry: p.entry,
        detail: p.detail,
    }
}

fn start_plain(status: Status, p: Place, pid: u8, packet: &[u8], n: u64) -> Middle
    ensures { result ≡ start_plain status p pid packet.now n }
{
    let kind = type_by(p.detail.kind);
    let token = token_of(packet);
    start_on(status, p, kind, token.address, pid, n)
}

// transaction_start, in row n: a malformed packet, a split, any other.
fn transaction_start(
    status: Status,
    x0: usize,
    e0: Endpoint,
    pid: u8,
    packet: &[u8],
    n: u64,
    d: Decoder,
    near: Near,
    table: &Table,
) -> Middle
    requires { Ready d table.now }
    ensures { ForSeen near x0 packet.now d table.now (λ w. result ≡ starting status x0 e0 pid packet.now n w) }
{
    let invalid = Detail {
        kind: kind::INVALID,
        given: false,
        max: 0,
    };
    match pid {
        MALFORMED => {
            let p = stand_at(x0, e0, INVALID_EP_ID, invalid, table);
            start_on(status, p, kind::UNKNOWN, 0, pid, n)
        }
        SPLIT => {
            let p = stand_at(x0, e0, INVALID_EP_ID, invalid, table);
            start_split(packet, pid, n, p)
        }
        _ => {
            let p = packet_endpoint(x0, e0, pid, packet, d, near, table);
            start_plain(status, p, pid, packet, n)
        }
    }
}

pub fn with_pid(pid: u8, t: Transaction) -> Transaction
    ensures { result ≡ with_pid pid t }
{
    Transaction { last: pid, ..t }
}

// A split's token has come.
fn with_token(style: Style, x: usize, t: Transaction) -> Transaction
    ensures { result ≡ with_token style x t }
{
    Transaction {
        style,
        endpoint: x,
        ..t
    }
}

// An endpoint's details once a split's type is stored for it: an ordinary number whose type is not known takes it.
fn typed_detail(address: u8, kind: u8, detail: Detail) -> Detail
    ensures { result ≡ typed_detail address kind detail }
{
    let number = address % 128;
    if (number != 0) & ((number < 16) & (detail.kind == kind::UNKNOWN)) {
        Detail { kind, ..detail }
    } else {
        detail
    }
}

// The split with the token pid, on the endpoint p, whose type is then known.
fn with_token_on(
    status: Status,
    p: Place,
    sc: u8,
    kind: u8,
    owner: u8,
    pid: u8,
    b: Transaction,
) -> Middle
    ensures { result ≡ with_token_on status p sc kind owner pid b }
{
    let t = with_pid(pid, with_token(Style::Token(sc, kind, pid), p.x, b));
    let update = update_for(status, pid, t, p.entry);
    let detail = typed_detail(p.number, kind, p.detail);
    let begin = Begin {
        row: false,
        device: p.device,
        endpoint: p.new,
        types: true,
        owner,
        place: p.place,
        number: p.number,
        kind,
        transaction: t,
        update,
    };
    Middle {
        begin,
        entry: p.entry,
        detail,
    }
}

// Any other packet: the transaction stays on its endpoint, whose details are known.
fn append_on(
    status: Status,
    x0: usize,
    e0: Endpoint,
    pid: u8,
    b: Transaction,
    detail: Detail,
    table: &Table,
) -> Middle
    requires { x0 < 128 }
    ensures { result ≡ going_by status (standing_on x0 e0 x0 detail (entry_at table.now x0)) pid b }
{
    let p = stand_at(x0, e0, x0, detail, table);
    let t = with_pid(pid, b);
    let update = update_for(status, pid, t, p.entry);
    let begin = go_on(false, t, update);
    Middle {
        begin,
        entry: p.entry,
        detail: p.detail,
    }
}

// transaction_append: a split's token, or any other packet.
fn transaction_append(
    status: Status,
    x0: usize,
    e0: Endpoint,
    pid: u8,
    packet: &[u8],
    b: Transaction,
    d: Decoder,
    near: Near,
    table: &Table,
) -> Middle
    requires ready { Ready d table.now }
    requires x0_lt_endpoints { x0 < d.counts.endpoints }
    ensures { ForSeen near x0 packet.now d table.now (λ w. result ≡ appending status x0 e0 pid packet.now b w) }
{
    match b.style {
        Style::Nothing | Style::Simple(_) | Style::Token(..) => {
            append_on(status, x0, e0, pid, b, near.old, table)
        }
        Style::Split(sc, kind) => {
            let p = packet_endpoint(x0, e0, pid, packet, d, near, table);
            let token = token_of(packet);
            with_token_on(status, p, sc, kind, token.address, pid, b)
        }
    }
}

// The step of the packet's transaction; b is the old one with what the packet brought to it, n the row of a new one.
pub fn middle_of(
    status: Status,
    x0: usize,
    e0: Endpoint,
    pid: u8,
    packet: &[u8],
    n: u64,
    b: Transaction,
    d: Decoder,
    near: Near,
    table: &Table,
) -> Middle
    requires ready { Ready d table.now }
    requires x0_lt_endpoints { x0 < d.counts.endpoints }
    ensures { ForSeen near x0 packet.now d table.now (λ w. result ≡ middle_of status x0 e0 pid packet.now n b w) }
{
    match status {
        Status::New | Status::Invalid => {
            transaction_start(status, x0, e0, pid, packet, n, d, near, table)
        }
        _ => transaction_append(status, x0, e0, pid, packet, b, d, near, table),
    }
}
