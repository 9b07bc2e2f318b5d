// What the application layer remembers (aps/aib of the Rust; document 01, 'The state'): for each device the link key shared with
// it, and the counters of both directions.
#![tactic(auto)]

mod counters;
mod pairs;
mod search;

pub use counters::{advance, record};
pub use pairs::{
    GLOBAL, PROVISIONAL, PairRow, Pairs, TRUST_CENTER_LINK_KEY, UNIQUE, UNVERIFIED, VERIFIED,
};
pub use search::{find, usable};
