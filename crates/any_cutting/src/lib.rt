// Request W-207's theorem, and no code: however data are cut into parts, their hash is that of the whole. It stands in specs/AnyCutting.antt;
// the proof is in the crate `mmo`.
#![tactic(auto)]
