use std::fs::Files;
use std::{fs, io};

/// What the system says of this process's limits (proc(5)).
const LIMITS: &str = "/proc/self/limits";

/// The length past which no file may grow, in bytes, by a line of the limits: its soft limit.
fn soft_limit(line: &str) -> Option<u64> {
    let limits = line.strip_prefix("Max file size")?;
    limits.split_whitespace().next()?.parse::<u64>().ok()
}

/// The length past which no file may grow, in bytes. A write past it would end the program by a
/// signal (SIGXFSZ, setrlimit(2)). Where the system sets no limit, or doesn't say, it is 2^64 - 1.
pub fn longest_file<R: Files + AllocGlobal>(rt: &R) -> u64 {
    let Ok(limits) = fs::read_to_string(rt, LIMITS) else {
        return u64::MAX;
    };
    for line in limits.lines() {
        if let Some(limit) = soft_limit(line) {
            return limit;
        }
    }
    u64::MAX
}
