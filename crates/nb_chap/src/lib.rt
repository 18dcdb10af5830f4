// CHAP with MD5 (RFC 1994, and RFC 7143, section 12.1.3): the response to a challenge, and the texts in
// which identifiers, challenges and responses are sent (RFC 7143, section 6.1): numbers, and binary values
// as hexadecimal digits or base64. Who asks whom, and in which messages, is a login's. Begin with
// `response`.
#![tactic(auto)]

mod laws;
mod responses;
mod values;

pub use laws::own_binary_texts_are_read;
pub use responses::response;
pub use values::{MAX_BINARY, binary, binary_text, byte};
