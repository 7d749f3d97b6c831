// What import and export of pcap files (02, 4) come to over every sequence of calls (specs/). No code: the statements speak of the contracts of the calls, of `export` and of `import`.
#![tactic(auto)]
