// What descriptors say of endpoints (USB 2.0, chapter 9): which requests are looked at, what is taken of the bytes that they read, and what the SETs do with it.
#![tactic(auto)]

pub mod choose;
pub mod complete;
pub mod payload;
pub mod request;
pub mod store;
pub mod walk;
