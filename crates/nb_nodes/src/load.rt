ghost use Rattle.std.specs.Prelude.{◌≡◌, refl};
ghost use Rattle.nb_nodes.specs.Objects.{first_body, first_part, second_part};
ghost use Rattle.nb_nodes.specs.Carriers.{conn_carrier, text_carrier, web_carrier};

use nb_conns::{CarriesConn, ConnLoad};
use nb_drivenodes::CarriesText;
use nb_graph::Parts;
use nb_image::Body;
use nb_terms::{Acts, SendTo};
use nb_webnodes::CarriesWeb;
use nb_wire::Text;

/// What a message of an open's objects carries, or a harvest.
#[derive(Drop)]
pub enum Load {
    /// The body of a file that is whole. It is handed out, and never lent: as a message it has no
    /// bytes.
    Body(Body),
    /// The datagram that a transfer sends, lent from what the transfer fills: its bytes are the body
    /// of the first message.
    Datagram(Box<Acts>),
    /// What a connection lends: its segments, or the bytes that go up.
    Conn(ConnLoad),
    /// A text of a fetch by HTTP: its request, bytes of a body that it gathered, or a move; or one of a session: a
    /// request, or a PDU.
    Text(Text),
}

impl Parts for Load {
    ghost first = { first_part };

    ghost second = { second_part };

    #[inline(always)]
    fn parts(&self) -> (&[u8], &[u8]) {
        match self {
            Load::Body(_) => (&[], &[]),
            Load::Datagram(acts) => (first_body(acts.sends.as_slice()), &[]),
            Load::Conn(load) => load.parts(),
            Load::Text(text) => (text.as_slice(), &[]),
        }
    }
}

impl CarriesConn for Load {
    ghost carrier = { conn_carrier };

    ghost in_parts = { λ load. refl };

    fn carry(load: ConnLoad) -> Load {
        Load::Conn(load)
    }

    #[inline(always)]
    fn conn_load(self) -> Option<ConnLoad> {
        match self {
            Load::Body(_) => None,
            Load::Datagram(_) => None,
            Load::Conn(load) => Some(load),
            Load::Text(_) => None,
        }
    }
}

impl CarriesWeb for Load {
    ghost web = { web_carrier };

    ghost web_parts = { λ load. refl };

    fn carry_text(text: Text) -> Load {
        Load::Text(text)
    }

    fn into_text(self) -> Option<Text> {
        match self {
            Load::Body(_) => None,
            Load::Datagram(_) => None,
            Load::Conn(_) => None,
            Load::Text(text) => Some(text),
        }
    }
}

impl CarriesText for Load {
    ghost texts = { text_carrier };

    ghost text_parts = { λ load. refl };

    fn load_of(text: Text) -> Load {
        Load::Text(text)
    }

    fn text_of(self) -> Option<Text> {
        match self {
            Load::Body(_) => None,
            Load::Datagram(_) => None,
            Load::Conn(_) => None,
            Load::Text(text) => Some(text),
        }
    }
}

/// The body of the first message, empty where there is none.
#[inline(always)]
fn first_body(sends: &[SendTo]) -> &[u8]
    ensures { result.now ≡ first_body sends.now }
{
    match sends.first() {
        Some(send) => send.body.as_slice(),
        None => &[],
    }
}
