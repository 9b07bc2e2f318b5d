// The frame reader (document 01): fields that set up a gateway and present frames to it, and a line for each frame.
#![tactic(auto)]

mod faults;
mod reading;

pub use faults::{BadField, Fault};
pub use reading::{Event, Line, Reader};
