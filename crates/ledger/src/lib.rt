// What became of every payload (specs/Ledger.antt), and that each call keeps its account (proofs/). No code: the statements speak of the rules.
#![tactic(auto)]
