// What C and Rust programs call to look at a trace before they take its records.
ghost use Rattle.std.specs.Prelude.{◌≡◌, ◌+◌, ◌*◌};
ghost use Rattle.trace.specs.Details.{details_of};
ghost use Rattle.trace.specs.Trace.{header_of, header_answer, header_place};

use crate::keep::TOP;
use trace::details::count_details;
use trace::{check_header, header_answer, header_place};

// The answer to the header in the top byte, and the place below it: where the records begin, or what is wrong.
#[unsafe(no_mangle)]
pub extern "C" fn pivotspark_header(trace: &[u8]) -> u64
    ensures { result ≡ 72057594037927936 * header_answer (header_of trace.now) + header_place (header_of trace.now) }
{
    let h = check_header(trace);
    let answer = header_answer(h) as u64;
    let place = header_place(h) as u64;
    TOP * answer + place
}

// How many records of a trace are details that were typed in (02, 13). Of a part of a trace: lend the five bytes before its records too.
#[unsafe(no_mangle)]
pub extern "C" fn pivotspark_details(trace: &[u8]) -> u64
    ensures { result ≡ details_of trace.now }
{
    count_details(trace) as u64
}
