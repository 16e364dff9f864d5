#![tactic(auto)]

// What is derived from a file and is no part of it: the index beside a save. specs/ defines it, proofs/ has its laws. There is no code here.
