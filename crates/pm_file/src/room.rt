//! How long a report's text is, so that it is written into one buffer. No contract rests on it.

use crate::report::{Group, Report, Row};

// A number with its comma, or null with its own.
fn result_room(value: Option<u64>) -> usize {
    match value {
        Some(n) => n.checked_ilog10().unwrap_or(0) as usize + 2,
        None => 5,
    }
}

fn row_room(row: &Row) -> usize {
    let mut room = 64 + row.object.len();
    for value in &row.results {
        room = room.wrapping_add(result_room(*value));
    }
    room
}

fn group_room(group: &Group) -> usize {
    let mut room = 64 + group.class.len();
    for name in &group.types {
        room = room.wrapping_add(3 + name.len());
    }
    for row in &group.rows {
        room = room.wrapping_add(row_room(row));
    }
    room
}

/// At least the length of the text.
pub(crate) fn text_room(report: &Report) -> usize {
    let mut room = 256 + report.job.len() + report.sender.len();
    for part in &report.parts {
        room = room.wrapping_add(128);
        for group in &part.groups {
            room = room.wrapping_add(group_room(group));
        }
    }
    room
}
