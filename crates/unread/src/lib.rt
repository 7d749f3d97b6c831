// What the shelf held does not matter, over every sequence of calls (specs/). No code: the statements speak of the contracts of the calls.
#![tactic(auto)]
