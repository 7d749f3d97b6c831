// State rows are listed whole (specs/). No code: the statements speak of the contracts of the calls, of `run` and of `list`.
#![tactic(auto)]
