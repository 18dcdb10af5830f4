//! The request's text (RFC 9112, section 3).

ghost use Rattle.std.specs.Prelude.{◌≡◌, IfOk};
ghost use Rattle.nb_responses.specs.Requests.{port_text, request_text, IsSendable, IsOneRequest};

use nb_httpmsg::HttpTarget;
use nb_terms::NoMemory;
use nb_wire::Text;
use std::alloc::Global;

/// Asks for the target's path, and for the end of the connection after the response.
pub(crate) fn request(alloc: Global, target: &HttpTarget) -> Result<Text, NoMemory>
    ensures text { IfOk result (λ text. text ≡ request_text target.now.host target.now.port target.now.path) }
    ensures single { IsSendable target.now.host target.now.path
        → IfOk result (IsOneRequest target.now.host target.now.port target.now.path) }
{
    let mut text = Vec::from_slice(alloc, b"GET ")?;
    text.extend_from_slice(target.path.as_slice())?;
    text.extend_from_slice(b" HTTP/1.1\r\nHost: ")?;
    text.extend_from_slice(target.host.as_slice())?;
    let port = port(alloc, target.port)?;
    text.extend_from_slice(port.as_slice())?;
    text.extend_from_slice(b"\r\nUser-Agent: netboot\r\nConnection: close\r\n\r\n")?;
    Ok(Text::from_vec(text))
}

/// The port with its colon, unless it is that of plain HTTP.
fn port(alloc: Global, port: u16) -> Result<Vec<u8>, NoMemory>
    ensures { IfOk result (λ text. text.items ≡ port_text port) }
{
    if port == 80 {
        return Ok(Vec::new(alloc));
    }
    Ok(format!(in alloc; ":{port}")?.into_bytes())
}
