// No code: what is proved over the definitions of the other crates. specs/ has the statements.

#![tactic(auto)]
