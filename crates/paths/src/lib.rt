// Ways from one number to another over any relation: definitions and laws alone. They are in specs/ and proofs/.
#![tactic(auto)]
