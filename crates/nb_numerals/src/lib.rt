// Numbers as text: decimal digits without leading zeros, `0x` and hexadecimal digits, and the four decimals of
// an IPv4 address (RFC 3986, section 3.2.2). What a number means and how large it may be is said by those who
// read it. It takes no memory. Begin with `number`.
#![tactic(auto)]

mod address;
mod numbers;

pub use address::read_address;
pub use numbers::{decimal, number};
