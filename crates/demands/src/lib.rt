// What the package promises: the three demands over the contracts of all its calls. There is no code; read proofs/Demands.antt.

#![tactic(auto)]
