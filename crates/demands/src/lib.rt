// Demand 3 over every sequence of calls, on the rows in the logs (specs/). No code: the statements speak of the contracts of the calls.
#![tactic(auto)]
