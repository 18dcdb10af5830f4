//! Records as rows to compare: what each is, and whose.

ghost use Rattle.std.specs.Prelude.{◌<◌, IfSome, length};

use nb_record::NoMemory;
use std::alloc::Global;

/// A record: of a step its number, of a frame the port that it is sent from, of an open its number and what comes after that, of
/// the graph the object.
#[derive(Clone, Copy, Debug, PartialEq, Eq)]
pub(crate) enum Row {
    Step(u8),
    Frame(u16),
    Opened(u8),
    Try(u8, u8),
    Advance(u8, u8),
    /// An open ends, with the code of its cause.
    Over(u8, u8),
    Made(u8),
    Held(u8),
    LetGo(u8),
    Plugged(u8),
    Entered(u8),
    Left(u8),
    Closed(u8),
    Unplugged(u8),
    Freed(u8),
    Other,
}

/// The rows of these records.
pub(crate) fn rows_of(alloc: Global, records: &[u8]) -> Result<Vec<Row>, NoMemory> {
    let mut rows = Vec::new(alloc);
    let mut rest = records;
    while let Some((row, after)) = first_row(rest) {
        rows.push(row)?;
        rest = after;
    }
    Ok(rows)
}

/// The row of the first of these records, and those after it.
fn first_row(records: &[u8]) -> Option<(Row, &[u8])>
    ensures { IfSome result (λ r. length r.1.now < length records.now) }
{
    let [0, 0, high, low, rest @ ..] = records else {
        return None;
    };
    let len = usize::from(u16::from_be_bytes([*high, *low]));
    if rest.len() < len {
        return None;
    }
    let (body, after) = rest.split_at(len);
    Some((row_of(body), after))
}

/// A record by its type and what follows that.
fn row_of(body: &[u8]) -> Row {
    match body {
        [0x81, 0, 0, 0, number] => Row::Step(*number),
        [0x82, frame @ ..] => Row::Frame(port_of(frame)),
        [0x87, 0, number, ..] => Row::Opened(*number),
        [0x88, 0, number, count] => Row::Try(*number, *count),
        [0x89, 0, number, 0, 0, 0, place] => Row::Advance(*number, *place),
        [0x8a, 0, number, code, ..] => Row::Over(*number, *code),
        [0x8b, event, 0, 0, 0, 0, 0, 0, 0, object, ..] => graph_row(*event, *object),
        _ => Row::Other,
    }
}

/// The number after a frame's IPv4 header: a datagram's own port.
fn port_of(frame: &[u8]) -> u16 {
    match (frame.get(34), frame.get(35)) {
        (Some(high), Some(low)) => u16::from_be_bytes([*high, *low]),
        _ => 0,
    }
}

/// A record of the graph by its event's number.
fn graph_row(event: u8, object: u8) -> Row {
    match event {
        1 => Row::Made(object),
        2 => Row::Held(object),
        3 => Row::LetGo(object),
        4 => Row::Plugged(object),
        5 => Row::Entered(object),
        6 => Row::Left(object),
        8 => Row::Closed(object),
        9 => Row::Unplugged(object),
        10 => Row::Freed(object),
        _ => Row::Other,
    }
}
