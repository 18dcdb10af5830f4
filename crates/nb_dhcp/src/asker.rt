//! A client, and which messages answer it.

ghost use Rattle.std.specs.Prelude.{◌≡◌, ◌&&◌};
ghost use Rattle.std.specs.Option.{option_map};
ghost use Rattle.nb_dhcpmsg.specs.Views.{parts_of};
ghost use Rattle.nb_dhcp.specs.Replies.{is_reply_to, is_offer_to, offer_of, is_its, offer_in, kind_from};

use crate::offer::Offer;
use nb_dhcpmsg::DhcpMsg;
use nb_wire::{Ip4, Mac};

/// The opcode of a server's messages (RFC 2131, section 2).
const FROM_SERVER: u8 = 2;
/// The kind of an offer (RFC 2132, section 9.6).
const OFFER: u8 = 2;
/// The option of a server's identifier (RFC 2132, section 9.7).
const SERVER: u8 = 54;

/// A client, as its messages say it.
#[derive(Clone, Copy, Debug, PartialEq, Eq, Drop)]
pub struct Asker {
    /// Its hardware address.
    pub mac: Mac,
    /// Its machine's identifier (RFC 4578, section 2.3).
    pub uuid: [u8; 16],
    /// Its architecture (RFC 4578, section 2.1).
    pub arch: u16,
    /// The number of its transaction.
    pub xid: u32,
}

impl Asker {
    /// The offer that a message's bytes are, where they are a valid one for this client.
    pub(crate) fn offer(&self, body: &[u8]) -> Option<Offer>
        ensures { result ≡ offer_in self.now body.now }
    {
        let message = DhcpMsg::read(body)?;
        let server = message.address(SERVER);
        if !self.is_offered(&message) {
            return None;
        }
        offer_of(message.yiaddr, server)
    }

    /// The kind of the message that the bytes are, where they are one for this client from this server.
    pub(crate) fn kind_from(&self, server: Ip4, body: &[u8]) -> Option<u8>
        ensures { result ≡ kind_from self.now server body.now }
    {
        let message = DhcpMsg::read(body)?;
        let named = message.address(SERVER);
        if !self.is_from(server, named, &message) {
            return None;
        }
        Some(message.kind)
    }

    /// Whether a message is for this client, and from this server; the other is the one that it names.
    fn is_from(&self, server: Ip4, named: Option<Ip4>, message: &DhcpMsg<'_>) -> bool
        ensures { result ≡ (is_reply_to self.now (parts_of message.now)
            && is_its server (option_map (λ ip. ip.0) named)) }
    {
        self.is_answered(message) && is_its(server, named)
    }

    /// Whether a message offers this client an address.
    fn is_offered(&self, message: &DhcpMsg<'_>) -> bool
        ensures { result ≡ is_offer_to self.now (parts_of message.now) }
    {
        self.is_answered(message) && message.kind == OFFER && message.yiaddr != Ip4(0)
    }

    /// Whether a message is a server's, and in reply to this client.
    fn is_answered(&self, message: &DhcpMsg<'_>) -> bool
        ensures { result ≡ is_reply_to self.now (parts_of message.now) }
    {
        message.op == FROM_SERVER && message.xid == self.xid && message.chaddr == self.mac
    }
}

/// The offer of an address by a server, where one is named.
fn offer_of(address: Ip4, server: Option<Ip4>) -> Option<Offer>
    ensures { result ≡ offer_of address.0 (option_map (λ ip. ip.0) server) }
{
    Some(Offer {
        server: server?,
        address,
    })
}

/// Whether this server is named.
fn is_its(server: Ip4, named: Option<Ip4>) -> bool
    ensures { result ≡ is_its server (option_map (λ ip. ip.0) named) }
{
    named == Some(server)
}
