// The theorems over the definitions of opening and securing (document 01). No code. What they speak of stands in specs/, they themselves, but for
// Cases, in proofs/.
//
// To read: specs/Frames, Nwk and Aps (what a list of openings is, and when two desks end alike), then
//   AnyOrder  nwk-in-any-order, aps-in-any-order: demand 3
//   AsAsked   nwk-as-asked, aps-as-asked: with all that it was asked with
// specs/NwkSteps and ApsSteps (a list of calls of any kind, and the counters and nonces that they use) and Stale (how an old frame is refused), then
//   NotAgain  nwk-not-again, aps-not-again: no frame opens twice, nor one older than a frame that has opened; which refusal it gets
//   Nonces    nwk-counters-once, nwk-nonces-once, aps-counters-once, aps-nonces-once: no counter is used twice, so no nonce; nwk-sealed-under,
//             aps-sealed-under: these are the nonces that frames are sealed under
//   Refusals  a refusal changes nothing, by each of the four rules
//   Cases     P1 to P10 as one list
// The other files prove these: NwkPlaced, NwkRun, ThreeNumbers, NwkActive, NwkTaken, NwkOrder, ApsPlaced and ApsOrder from the law of order in `cells`; NwkAgain and ApsAgain from `Rising`
// there; NwkSent, ApsSent, ApsRows, Moves, NwkOnce and ApsOnce from `Once` there; Kept, NwkKept and ApsKept for the refusals. That demand 3 asks for
// nothing in vain, that the hypotheses can be met, and what does not hold of nonces is shown in the crates `needed` and `needed_aps`. Demand 3 of the code itself stands in
// `gateway_order`.
#![tactic(auto)]
