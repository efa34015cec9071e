// How near the figures and greys of an outline's table are to its exact areas. Mathematics only, no code: `specs/` has the definitions, `proofs/` what is proved of them.
#![tactic(auto)]
