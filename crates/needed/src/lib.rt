// Why demand 3 asks what it asks (crate `order`, proofs/AnyOrder.antt): without any one of its hypotheses it does not hold. No code.
//
// To read: proofs/Needed.antt (needs-active, needs-free-rows, needs-order). They rest on frames whose tags are computed by AES and CCM as they are defined
// (OnAir, OnAirLaws), which is most of this crate's check, and on desks with these frames (TwoFrames, Desks). proofs/Inhabited.antt: the hypotheses of the theorems
// over NWK can be met. APS has a crate of its own, `needed_aps`.
#![tactic(auto)]
