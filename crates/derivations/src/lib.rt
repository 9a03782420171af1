// What a set of vertices opens, and what a loss takes away: the definitions stand in specs/, and
// what follows from them, for access and lockout alike, in proofs/. There is no code here.

#![tactic(auto)]
