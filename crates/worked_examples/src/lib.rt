// Document 01's bench examples B1 to B12: one table in specs/ and one theorem in proofs/.
// Forecasts, quick answers, kinds of attacker, lists shown set by set, cut sets, multisets, and
// lists of calls on a setup that lives, each with its table and theorem; two labs that pool their
// sheets; an afternoon at the class register; and a drawing saved.
// There is no code here.

#![tactic(auto)]
