//! The results of measurements in a row.
ghost use Rattle.std.specs.Prelude.{◌≡◌, ◌≤◌, ◌*◌, ◌-◌, ◌^◌, length, bytes_eq, position};
ghost use Rattle.std.specs.List.{list_any};
ghost use Rattle.pm_kpi.specs.Rows.{result_of, have_all, have_results, sum_of};

use pm_base::Text;

fn is_same(name: &Text, measure: &[u8]) -> bool
    ensures { result ≡ bytes_eq measure.now name.now }
{
    measure == name.as_bytes()
}

fn has(types: &[Text], measure: &[u8]) -> bool
    ensures { result ≡ list_any (bytes_eq measure.now) types.now }
{
    for name in types {
        if is_same(name, measure) {
            return true;
        }
    }
    false
}

/// Whether the types have each of these measurements.
pub(crate) fn have_all(types: &[Text], measures: &[Text]) -> bool
    ensures { result ≡ have_all types.now measures.now }
{
    for measure in measures {
        if !has(types, measure.as_bytes()) {
            return false;
        }
    }
    true
}

// The first place of a measurement in the types.
fn first_place(types: &[Text], measure: &[u8]) -> Option<usize>
    ensures { result ≡ position (bytes_eq measure.now) types.now }
{
    types.iter().position(|name| is_same(name, measure))
}

fn result_of(types: &[Text], results: &[Option<u64>], measure: &[u8]) -> Option<u64>
    ensures { result ≡ result_of types.now results.now measure.now }
{
    let place = first_place(types, measure)?;
    match results.get(place) {
        Some(value) => *value,
        None => None,
    }
}

/// Whether no result of these measurements is null.
pub(crate) fn have_results(types: &[Text], results: &[Option<u64>], measures: &[Text]) -> bool
    ensures { result ≡ have_results types.now results.now measures.now }
{
    for measure in measures {
        if result_of(types, results, measure.as_bytes()).is_none() {
            return false;
        }
    }
    true
}

/// The sum of the results of these measurements, at most eight. Null counts as 0.
pub(crate) fn sum_of(types: &[Text], results: &[Option<u64>], measures: &[Text]) -> u128
    requires { length measures.now ≤ 8 }
    ensures value { result ≡ sum_of types.now results.now measures.now }
    ensures small { result ≤ 8 * (2 ^ 64 - 1) }
{
    let mut sum = 0u128;
    for measure in measures {
        let value = result_of(types, results, measure.as_bytes()).unwrap_or(0);
        sum += u128::from(value);
    }
    sum
}
