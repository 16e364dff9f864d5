// How long a text and a word can be: laws only, in proofs/, of the bounds in specs/. There is no code here.
#![tactic(auto)]
