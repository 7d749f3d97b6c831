// The kinds of link: a row of an endpoint's transactions, groups, payload totals and group ends.
pub const T: u64 = 0;

pub const G: u64 = 1;

pub const D: u64 = 2;

pub const E: u64 = 3;
