// Document 01 as definitions, and laws about them: specs/ and proofs/. There is no function here.
#![tactic(auto)]
