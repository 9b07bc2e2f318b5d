// What the promises decide (document 01, 'What the promises have to decide'): one outcome for each input of each public function. No code.
//
// To read: specs/Decides (what it is for a promise to decide) and proofs/Decided, a list by crate. KeyWords has what the round keys need,
// OneTable what the tables of AES do.
#![tactic(auto)]
