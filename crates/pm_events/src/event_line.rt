//! The reading of a line of events.
ghost use Rattle.std.specs.Prelude.{◌≡◌, ◌∷◌, [], length, MatchOption, IfSome, Some, None};
ghost use Rattle.pm_events.specs.EventLine.{event_line, event_of_words, AreNames};

use pm_base::{MOST_LINE, cut_at, read_moment, read_number};

/// What a line of events says. Whether its names are those of a slot, and its value is in range, isn't looked at.
#[derive(Clone, Copy, Debug)]
pub struct EventLine<'a> {
    /// Seconds since 1970-01-01 00:00 UTC.
    pub moment: u64,
    /// One byte or more, where the distinguished name of the measured object is.
    pub object: &'a [u8],
    /// One byte or more, where the name of the measurement is.
    pub metric: &'a [u8],
    /// Both names, with the space between.
    pub names: &'a [u8],
    /// The number of 1 to 10 digits, up to 9,999,999,999.
    pub value: u64,
}

/// Reads a line `MOMENT LDN METRIC VALUE`, its line feed left out and single spaces between its words; none where it
/// hasn't this form, or has over 2,048 bytes. The form is this project's own.
pub fn read_event_line(line: &[u8]) -> Option<EventLine<'_>>
    ensures event { MatchOption result (event_line line.now ≡ None) (λ e. event_line line.now ≡ Some (record { moment = e.moment; object = e.object.now; metric = e.metric.now; value = e.value })) }
    ensures names { IfSome result (λ e. AreNames e.object.now e.metric.now e.names.now) }
{
    if line.len() > MOST_LINE {
        return None;
    }
    let (moment, rest) = cut_at(b' ', line)?;
    let (object, behind) = cut_at(b' ', rest)?;
    let (metric, value) = cut_at(b' ', behind)?;
    let names = &rest[..object.len() + 1 + metric.len()];
    match cut_at(b' ', value) {
        Some(_) => None,
        None => event_of(moment, object, metric, names, value),
    }
}

fn event_of<'a>(
    moment: &'a [u8],
    object: &'a [u8],
    metric: &'a [u8],
    names: &'a [u8],
    value: &'a [u8],
) -> Option<EventLine<'a>>
    requires { AreNames object.now metric.now names.now }
    ensures names { IfSome result (λ e. AreNames e.object.now e.metric.now e.names.now) }
    ensures event { let words = moment.now ∷ object.now ∷ metric.now ∷ value.now ∷ [] in MatchOption result (event_of_words words ≡ None) (λ e. event_of_words words ≡ Some (record { moment = e.moment; object = e.object.now; metric = e.metric.now; value = e.value })) }
{
    let moment = read_moment(moment)?;
    let value = read_number(value, 10)?;
    if object.is_empty() || metric.is_empty() {
        return None;
    }
    Some(EventLine {
        moment,
        object,
        metric,
        names,
        value,
    })
}
