use nb_retry::{Due, Plan, Retry};
use std::test::Fail;

#[test]
fn a_stopped_timer_is_quiet(rt: HostRuntime) -> Result<(), Fail> {
    let mut retry = Retry::stopped();
    assert_eq!(rt; retry.due(u64::MAX), Due::Not, "never started");
    retry.start(0, Plan::Dhcp);
    retry.stop();
    assert_eq!(rt; retry.due(u64::MAX), Due::Not, "stopped again");
    Ok(())
}

// A silent server, and a clock of quarters of a second: the tries stand at the sums of the delays.
#[test]
fn fires_at_the_sums_of_its_delays(rt: HostRuntime) -> Result<(), Fail> {
    let mut retry = Retry::stopped();
    retry.start(0, Plan::Common);
    for (now, due) in [
        (0, Due::Not),
        (249, Due::Not),
        (250, Due::Again(2)),
        (500, Due::Not),
        (750, Due::Again(3)),
        (1750, Due::Again(4)),
        (3750, Due::Again(5)),
        (7750, Due::Again(6)),
        (15_500, Due::Not),
        (15_750, Due::Over),
        (16_000, Due::Not),
    ] {
        assert_eq!(rt; retry.due(now), due, "at {now}");
    }
    Ok(())
}
