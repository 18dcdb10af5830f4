//! When a message that got no answer is sent again: a plan of delays, and the timer that follows it.
//!
//! A timer is asked at record times, in milliseconds since the start of the run. It fires at the first
//! time asked at or after its moment, and the next delay counts from there. RFC 1350, section 2,
//! RFC 2131, section 4.1, and RFC 9293, section 3.8, leave the delays to the host: these are our own.
//! Start with `Retry`. Sending is left to the caller.
#![tactic(auto)]

mod plan;
mod retry;

pub use plan::Plan;
pub use retry::{Due, Retry};
