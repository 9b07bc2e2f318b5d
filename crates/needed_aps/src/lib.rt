// As `needed`, for APS: without any one of its hypotheses demand 3 does not hold (proofs/Needed.antt: aps-needs-free-rows, aps-needs-order), by two frames
// whose tags are computed (OnAir) and desks with these (Desks). proofs/Reuse.antt (same-nonce-twice): what does not hold of nonces. proofs/Inhabited.antt:
// the hypotheses can be met. No code.
#![tactic(auto)]
