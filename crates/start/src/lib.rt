// The call that every user makes first: it takes any input, and its contract says what it answers and leaves.
#![tactic(auto)]

pub mod fresh;
