// 01's starred bench cases: one statement over one table (specs/). No code: the table speaks of the contracts of the crates below.
#![tactic(auto)]
