// What carries the steps of the rules out on memory: the rows of groups, states, items and links, and the endpoint table.
#![tactic(auto)]

pub mod entries;
pub mod leaf;
pub mod steps;

use rules::Stamp;

// The first numbers of the logs whose rows other rows name: a row's number is its place behind that.
#[derive(Clone, Copy)]
pub struct Firsts {
    pub groups: u64,
    pub statebytes: u64,
    pub items: u64,
}

// What a call brings, and how far it has written: the rows that the five logs hold which groups go to, the last item's endpoint, and the transaction's T row.
#[derive(Clone, Copy)]
pub struct Written {
    pub stamp: Stamp,
    pub firsts: Firsts,
    pub groups: usize,
    pub statebytes: usize,
    pub states: usize,
    pub items: usize,
    pub links: usize,
    // last_item_endpoint: 128 where there is none.
    pub last: usize,
    // ep_transaction_id: whether there is one, and the number.
    pub linked: bool,
    pub link: u64,
}
