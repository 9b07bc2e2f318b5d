// Lemmas for proofs by hand, with nothing of any protocol in them: how a lent slice of structs is lent on and comes back, how a
// function's locals are freed, and how a walk of a function's code becomes the theorem that the check asks.
// Definitions and lemmas only; they stand in specs/.
#![tactic(auto)]
