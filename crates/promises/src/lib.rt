// What a user may rely on: statements in specs/, their proofs in proofs/. There is no code here.
#![tactic(auto)]
