// How many records of a trace are details that were typed in (02, 13): a pass of its own over the records.
ghost use Rattle.std.specs.Prelude.{◌≡◌};
ghost use Rattle.trace.specs.Details.{details_of};
ghost use Rattle.trace.specs.Pass.{passed_by};

use crate::reader::record_at;
use crate::{HEADER, Next};

// A whole record that is passed: where the next one starts, and 1 for a detail.
#[derive(Clone, Copy)]
struct Passed {
    next: usize,
    details: usize,
}

// None where no whole record stands.
fn pass(found: Next) -> Option<Passed>
    ensures { result ≡ passed_by found }
{
    match found {
        Next::Packet { next, .. } | Next::Event { next, .. } => Some(Passed {
            next: next.at,
            details: 0,
        }),
        Next::Detail { next, .. } => Some(Passed {
            next: next.at,
            details: 1,
        }),
        Next::Unknown | Next::Cut | Next::End => None,
    }
}

pub fn count_details(trace: &[u8]) -> usize
    ensures { result ≡ details_of trace.now }
{
    let mut at: usize = HEADER;
    let mut n: usize = 0;
    while let Some(p) = pass(record_at(trace, at)) {
        n += p.details;
        at = p.next;
    }
    n
}
