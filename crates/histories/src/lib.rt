// Theorems over lists of calls on a setup that lives (document 02, point 8), and that no other call
// heeds what is held. There is no code here: the calls are those of `living`.

#![tactic(auto)]
