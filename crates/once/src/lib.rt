// No byte counted twice, over every sequence of calls, on the logs, the record and the endpoint table (specs/). No code: the statements speak of the contracts of the calls.
#![tactic(auto)]
