use nb_ping::Ping;
use nb_terms::{Acts, Cause};
use nb_wire::Ip4;

const HOST: Ip4 = Ip4(0x0a00_0001);

/// The request and its second try are sent, and the host's reply ends the ping.
#[test]
fn ends_with_the_hosts_reply(rt: HostRuntime) {
    let mut acts = Acts::none();
    let mut ping = Ping::start(0, HOST, 7, 0, &mut acts);
    assert_eq!(rt; (acts.sends.as_slice().len(), acts.tried), (1, Some(1)));
    ping.time(250, &mut acts);
    assert_eq!(rt; (acts.sends.as_slice().len(), acts.tried), (1, Some(2)));
    ping.message(HOST, 7, 260, &mut acts);
    assert_eq!(rt;
        acts.over,
        Some(Cause {
            code: 0,
            a: 0,
            b: 0
        })
    );
}
