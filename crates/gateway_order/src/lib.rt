// Demand 3 of the code: lists of calls of `nwk::open_nwk` and of `aps::open_aps`, each with any result that its promise allows, where a gateway hands on
// what it holds from call to call: `used`, `active` and the rows, or the pairs (gateway/README.md). No code.
//
// To read: specs/Calls and ApsCalls (what a call is), proofs/InAnyOrder (code-in-any-order) and ApsInAnyOrder (aps-code-in-any-order).
#![tactic(auto)]
