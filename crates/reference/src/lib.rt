// What the definitions of `derivations` and `bases` come to on a given setup: executable
// definitions stand in specs/, and proofs/ shows that they are the declared ones. No code is here.

#![tactic(auto)]
