// What the proofs of every crate share, in specs/: when a contract pins its result down, and how a test decides a definition.
#![tactic(auto)]
