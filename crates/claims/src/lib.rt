// No code: the theorems that the order asks for, stated in proofs/Claims.antt, each proved in a line that cites another file.
#![tactic(auto)]
