// The end of a transaction (group_update), and what it leaves of the endpoint's entry.
ghost use Rattle.std.specs.Prelude.{◌≡◌, false};
ghost use Rattle.transaction.specs.Table.{pick};
ghost use Rattle.update.specs.Entry.{item_after, words_after};
ghost use Rattle.plan.specs.Step.{end_of};
ghost use Rattle.plan.specs.Packet.{resting, end_if, last_ended};
ghost use Rattle.plan.specs.Words.{close_words};

use crate::begin::no_update;
use details::Detail;
use endpoints::Endpoint;
use group::{Effect, group_status};
use plan::{End, Middle};
use transaction::Transaction;
use transaction::payload::start_pid;
use update::entry::{entry_update, transaction_update};
use update::{Update, decide_update};

// Of a transaction t on the endpoint x with the entry e; last is the last item's endpoint.
pub fn end_of(
    x: usize,
    e: Endpoint,
    t: Transaction,
    detail: Detail,
    last: usize,
    success: bool,
    complete: bool,
) -> End
    ensures { result ≡ end_of x e t detail last success complete }
{
    let g = group_status(e, t, detail, success, complete);
    let update = decide_update(g.status, g.endpoint.phase, t.linked, last == x);
    End {
        entry: g.endpoint,
        update,
        effect: g.effect,
    }
}

// Where it does not end, its entry stays, and nothing is done.
pub fn resting_end(e: Endpoint) -> End
    ensures { result ≡ resting e }
{
    End {
        entry: e,
        update: no_update(),
        effect: Effect::NoEffect,
    }
}

// The end of the old transaction, neither with success nor complete, where it ends; detail is that of its endpoint.
pub fn decided_end(
    ends: bool,
    x: usize,
    e: Endpoint,
    t: Transaction,
    last: usize,
    detail: Detail,
) -> End
    ensures { result ≡ end_if ends (end_of x e t detail last false false) e }
{
    if ends {
        end_of(x, e, t, detail, last, false, false)
    } else {
        resting_end(e)
    }
}

// The last item's endpoint after an update of endpoint x.
fn item_after(u: Update, x: usize, last: usize) -> usize
    ensures { result ≡ item_after u x last }
{
    if u.item || u.start { x } else { last }
}

// The entry of the old endpoint once the old transaction, with the token pid, has ended.
pub fn entry_ended(ends: bool, end: End, pid: u8, e: Endpoint) -> Endpoint
    ensures { result ≡ pick ends (words_after end.update pid end.entry) e }
{
    if ends {
        entry_update(end.update, pid, end.entry)
    } else {
        e
    }
}

// The last item's endpoint then.
pub fn last_ended(ends: bool, end: End, x: usize, last: usize) -> usize
    ensures { result ≡ last_ended ends end x last }
{
    if ends {
        item_after(end.update, x, last)
    } else {
        last
    }
}

// The end of the packet's own transaction, decided from what its step leaves.
fn close_of(m: Middle, last: usize, success: bool, complete: bool) -> End
    ensures { result ≡ close_words m last success complete }
{
    let u = m.begin.update;
    let t = m.begin.transaction;
    let x = t.endpoint;
    let e = entry_update(u, start_pid(t.style), m.entry);
    let t = transaction_update(u, t, m.entry.transactions);
    let last = item_after(u, x, last);
    end_of(x, e, t, m.detail, last, success, complete)
}

// The same where it ends; else nothing is done.
pub fn close_if(closes: bool, m: Middle, last: usize, success: bool, complete: bool) -> End
    ensures { result ≡ end_if closes (close_words m last success complete) m.entry }
{
    if closes {
        close_of(m, last, success, complete)
    } else {
        resting_end(m.entry)
    }
}
