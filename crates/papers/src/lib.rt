// What published papers promise of the methods, as statements about the crate meaning's definitions, and counterexamples: specs/ and proofs/. There is no function here.
#![tactic(auto)]
