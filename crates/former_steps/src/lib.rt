// No code: laws that stood in specs/ and by which earlier forms of the code of `usb` and `descriptors` were proved. No proof leans on them now, so they cost no crate above.
#![tactic(auto)]
