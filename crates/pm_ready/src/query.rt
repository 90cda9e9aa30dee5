//! What a listing is asked for.

/// Which files a listing shows.
#[derive(Clone, Copy, Debug, PartialEq, Eq)]
pub struct FileQuery {
    /// Whether the type of files that is asked for is `Performance`, that of all report files; `None` where no type is named.
    pub performance: Option<bool>,
    /// The first and the last moment at which a file that is shown is ready, in seconds since 1970-01-01 00:00 UTC.
    pub begin: Option<u64>,
    pub end: Option<u64>,
}
