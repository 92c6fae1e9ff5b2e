// No code yet: document 01's ordering as definitions. specs/ has them, proofs/ their laws.

#![tactic(auto)]
