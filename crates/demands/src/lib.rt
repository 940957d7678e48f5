// The three demands of the register, each as a statement over the public functions' own, and its proof. No code.
#![tactic(auto)]
