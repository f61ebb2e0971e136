// Laws for walks by hand: proofs of functions that the borrow checker does not cover. It holds no
// code; proofs/Lib.antt says how a walk goes and which law serves which statement.

#![tactic(auto)]
