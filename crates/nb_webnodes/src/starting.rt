//! How a fetch begins.

ghost use Rattle.std.specs.Prelude.{◌≡◌, IfOk};
ghost use Rattle.nb_webnodes.specs.WebAsks.{ask_parts};
ghost use Rattle.nb_webnodes.specs.WebTalks.{WebStarts};

use crate::WebAsk;
use nb_http::Http;
use nb_httpmsg::HttpTarget;
use nb_terms::NoMemory;
use nb_wire::Text;
use std::alloc::Global;

/// The target that is asked for. Its port is that of the connection.
fn target_of(alloc: Global, ask: &WebAsk<'_>) -> Result<HttpTarget, NoMemory>
    ensures host { IfOk result (λ t. t.host ≡ ask.now.host.now) }
    ensures port { IfOk result (λ t. t.port ≡ ask.now.conn.peer_port) }
    ensures path { IfOk result (λ t. t.path ≡ ask.now.path.now) }
{
    Ok(HttpTarget {
        host: Text::from_vec(Vec::from_slice(alloc, ask.host)?),
        port: ask.conn.peer_port,
        path: Text::from_vec(Vec::from_slice(alloc, ask.path)?),
    })
}

/// The core that reads the response, and the request's text.
pub(crate) fn start(alloc: Global, ask: &WebAsk<'_>) -> Result<(Http, Text), NoMemory>
    ensures { IfOk result (λ r. WebStarts (ask_parts ask.now) r.0 r.1) }
{
    let target = target_of(alloc, ask)?;
    Http::start(alloc, &target)
}
