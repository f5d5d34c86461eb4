// The text that trimlist reads and what it prints, as definitions and laws: specs/ and proofs/. There is no function here.
#![tactic(auto)]
