//! What a client sends.

ghost use Rattle.std.specs.Prelude.{◌≡◌, ◌+◌, ◌%◌, ◌++◌, ◌≤◌, [], length};
ghost use Rattle.nb_dhcp.specs.Messages.{start_text, message_kind_text, class_text, identity_text, five_decimals, message_text};

use crate::asker::Asker;
use crate::offer::Offer;
use arrayvec::ArrayVec;

/// The most bytes of a client's message: those of a REQUEST.
pub(crate) const MESSAGE: usize = 349;

/// A request of a host by Ethernet, without relays (RFC 2131, section 2).
const START: [u8; 4] = [1, 1, 6, 0];
/// No seconds have passed, and the answer is to be broadcast; no addresses are known.
const FLAGS: [u8; 20] = [0, 0, 128, 0, 0, 0, 0, 0, 0, 0, 0, 0, 0, 0, 0, 0, 0, 0, 0, 0];
/// What is left of the hardware address's field, and the fields for a server's and a file's name.
const NAMES: [u8; 202] = [0; 202];
/// What the options begin with (RFC 2131, section 3).
const COOKIE: [u8; 4] = [99, 130, 83, 99];

/// The user class `iPXE` (RFC 3004, without its inner lengths).
const USER_CLASS: [u8; 6] = [77, 4, 105, 80, 88, 69];
/// The options that are asked for (RFC 2132, section 9.8).
const ASKED: [u8; 12] = [55, 10, 1, 3, 6, 12, 15, 17, 66, 67, 175, 203];

/// Puts the message: a DISCOVER, or the REQUEST of an offer.
pub(crate) fn put_message(asker: &Asker, offer: Option<Offer>, to: &mut ArrayVec<u8, 349>)
    requires { to.old.items ≡ [] }
    ensures { to.new.items ≡ message_text asker.now offer }
{
    put_start(asker, to);
    put_kind(offer, to);
    put_class(asker, to);
    put_identity(asker, to);
}

/// Puts the fields before the options.
fn put_start(asker: &Asker, to: &mut ArrayVec<u8, 349>)
    requires { to.old.items ≡ [] }
    ensures value { to.new.items ≡ start_text asker.now }
    ensures size { length to.new.items ≡ 240 }
{
    put(&START, to);
    put(&asker.xid.to_be_bytes(), to);
    put(&FLAGS, to);
    put(&asker.mac.0, to);
    put(&NAMES, to);
    put(&COOKIE, to);
}

/// Puts the message's kind, and what is requested.
fn put_kind(offer: Option<Offer>, to: &mut ArrayVec<u8, 349>)
    requires { length to.old.items ≡ 240 }
    ensures value { to.new.items ≡ to.old.items ++ message_kind_text offer }
    ensures size { length to.new.items ≤ 255 }
{
    match offer {
        None => put(&[53, 1, 1], to),
        Some(offer) => {
            put(&[53, 1, 3, 54, 4], to);
            put(&offer.server.0.to_be_bytes(), to);
            put(&[50, 4], to);
            put(&offer.address.0.to_be_bytes(), to);
        }
    }
}

/// Puts what kind of machine the client is.
fn put_class(asker: &Asker, to: &mut ArrayVec<u8, 349>)
    requires { length to.old.items ≤ 255 }
    ensures value { to.new.items ≡ to.old.items ++ class_text asker.now.arch }
    ensures size { length to.new.items ≡ length to.old.items + 47 }
{
    put(&[57, 2, 5, 220, 93, 2], to);
    put(&asker.arch.to_be_bytes(), to);
    put(&[94, 3, 1, 2, 1, 60, 32], to);
    put(b"PXEClient:Arch:", to);
    put(&five_decimals(asker.arch), to);
    put(b":UNDI:002001", to);
}

/// Puts the options that are asked for, and who asks.
fn put_identity(asker: &Asker, to: &mut ArrayVec<u8, 349>)
    requires { length to.old.items ≤ 302 }
    ensures { to.new.items ≡ to.old.items ++ identity_text asker.now }
{
    put(&USER_CLASS, to);
    put(&ASKED, to);
    put(&[61, 7, 1], to);
    put(&asker.mac.0, to);
    put(&[97, 17, 0], to);
    put(&asker.uuid, to);
    put(&[255], to);
}

/// A number of 16 bits as five decimals, with zeros before it.
fn five_decimals(number: u16) -> [u8; 5]
    ensures { result ≡ five_decimals number }
{
    [
        digit(number / 10_000),
        digit(number / 1000),
        digit(number / 100),
        digit(number / 10),
        digit(number),
    ]
}

/// The last decimal of a number.
fn digit(number: u16) -> u8
    ensures { result ≡ 48 + number % 10 }
{
    b'0' + (number % 10) as u8
}

fn put(bytes: &[u8], to: &mut ArrayVec<u8, 349>)
    requires { length to.old.items + length bytes.now ≤ 349 }
    ensures value { to.new.items ≡ to.old.items ++ bytes.now }
    ensures size { length to.new.items ≡ length to.old.items + length bytes.now }
{
    let _ = to.try_extend_from_slice(bytes);
}
