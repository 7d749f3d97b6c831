// No code: runs of the Rust of docs/src, computed by the rules (proofs/Oracle.antt, written by the oracle).
#![tactic(auto)]
