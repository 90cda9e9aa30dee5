//! The words of a line of a batch.
ghost use Rattle.std.specs.Prelude.{◌≡◌, ◌∷◌, [], MatchOption, IfSome, Some, None};
ghost use Rattle.pm_events.specs.EventLine.{AreNames};
ghost use Rattle.pm_events.specs.BatchLine.{batch_line, value_of_words};

use pm_base::{cut_at, read_number};

/// What a line of a batch says. Whether its names are those of a slot, and its value is in range, isn't looked at.
#[derive(Clone, Copy, Debug)]
pub struct BatchLine<'a> {
    /// One byte or more, where the distinguished name of the measured object is.
    pub object: &'a [u8],
    /// One byte or more, where the name of the measurement is.
    pub metric: &'a [u8],
    /// Both names, with the space between.
    pub names: &'a [u8],
    /// The number of 1 to 10 digits, up to 9,999,999,999.
    pub value: u64,
}

/// Reads a line `LDN METRIC VALUE`, its line feed left out and single spaces between its words; none where it hasn't this
/// form. The form is this project's own.
pub fn read_batch_line(line: &[u8]) -> Option<BatchLine<'_>>
    ensures value { MatchOption result (batch_line line.now ≡ None) (λ v. batch_line line.now ≡ Some (record { object = v.object.now; metric = v.metric.now; value = v.value })) }
    ensures names { IfSome result (λ v. AreNames v.object.now v.metric.now v.names.now) }
{
    let (object, behind) = cut_at(b' ', line)?;
    let (metric, value) = cut_at(b' ', behind)?;
    let names = &line[..object.len() + 1 + metric.len()];
    match cut_at(b' ', value) {
        Some(_) => None,
        None => value_of(object, metric, names, value),
    }
}

fn value_of<'a>(
    object: &'a [u8],
    metric: &'a [u8],
    names: &'a [u8],
    value: &'a [u8],
) -> Option<BatchLine<'a>>
    requires { AreNames object.now metric.now names.now }
    ensures names { IfSome result (λ v. AreNames v.object.now v.metric.now v.names.now) }
    ensures value { let words = object.now ∷ metric.now ∷ value.now ∷ [] in MatchOption result (value_of_words words ≡ None) (λ v. value_of_words words ≡ Some (record { object = v.object.now; metric = v.metric.now; value = v.value })) }
{
    let value = read_number(value, 10)?;
    if object.is_empty() || metric.is_empty() {
        return None;
    }
    Some(BatchLine {
        object,
        metric,
        names,
        value,
    })
}
