//! The query of a listing.
ghost use Rattle.std.specs.Prelude.{◌≡◌};
ghost use Rattle.std.specs.Option.{option_map};
ghost use Rattle.pm_http.specs.Query.{read_type, read_time, IsListing};
ghost use Rattle.pm_http.specs.QuerySteps.{one_more, pair_more};

use crate::QueryError;
use form_urlencoded::parse;
use pm_base::read_moment;
use std::alloc::Global;

/// What a listing is asked for.
#[derive(Clone, Copy, Debug, PartialEq, Eq)]
pub struct Query {
    /// Whether the type of files that is asked for is `Performance`, where one is named by `fileDataType`.
    pub performance: Option<bool>,
    /// The first and the last moment, in seconds since 1970-01-01 UTC, by `beginTime` and `endTime`. Both belong to the span.
    pub begin: Option<u64>,
    pub end: Option<u64>,
}

/// Reads the query of a listing, in the form encoding of the URL standard: names and values are percent-decoded.
pub fn read_query(alloc: Global, query: &[u8]) -> Result<Query, QueryError>
    ensures { IsListing query.now result }
{
    let mut asked = Query {
        performance: None,
        begin: None,
        end: None,
    };
    for pair in parse(alloc, query) {
        let Ok((name, value)) = pair else {
            return Err(QueryError::Memory);
        };
        let Some(more) = with_pair(asked, name.as_bytes(), value.as_bytes()) else {
            return Err(QueryError::L2);
        };
        asked = more;
    }
    Ok(asked)
}

// What one pair more gives.
fn with_pair(asked: Query, name: &[u8], value: &[u8]) -> Option<Query>
    ensures { result ≡ pair_more asked name.now value.now }
{
    if name == b"fileDataType".as_slice() {
        with_type(asked, value)
    } else if name == b"beginTime".as_slice() {
        with_begin(asked, value)
    } else if name == b"endTime".as_slice() {
        with_end(asked, value)
    } else {
        None
    }
}

fn with_type(asked: Query, value: &[u8]) -> Option<Query>
    ensures { result ≡ option_map (λ p. record asked { performance = p }) (one_more read_type asked.performance value.now) }
{
    match asked.performance {
        None => Some(Query {
            performance: Some(value == b"Performance".as_slice()),
            ..asked
        }),
        Some(_) => None,
    }
}

fn with_begin(asked: Query, value: &[u8]) -> Option<Query>
    ensures { result ≡ option_map (λ t. record asked { begin = t }) (one_more read_time asked.begin value.now) }
{
    match one_time(asked.begin, value) {
        Some(begin) => Some(Query { begin, ..asked }),
        None => None,
    }
}

fn with_end(asked: Query, value: &[u8]) -> Option<Query>
    ensures { result ≡ option_map (λ t. record asked { end = t }) (one_more read_time asked.end value.now) }
{
    match one_time(asked.end, value) {
        Some(end) => Some(Query { end, ..asked }),
        None => None,
    }
}

// A time, where none was read before.
fn one_time(found: Option<u64>, value: &[u8]) -> Option<Option<u64>>
    ensures { result ≡ one_more read_time found value.now }
{
    match found {
        None => match read_moment(value) {
            Some(moment) => Some(Some(moment)),
            None => None,
        },
        Some(_) => None,
    }
}
