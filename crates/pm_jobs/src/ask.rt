//! What a request asks of jobs and monitors.

/// A request on what stands, or is to stand, under an id.
#[derive(Clone, Copy, Debug)]
pub enum Ask<'a> {
    /// A body as a job, or a monitor, of this id.
    Create { id: &'a [u8], body: &'a [u8] },
    /// A body that says the state which is to stand.
    State { id: &'a [u8], body: &'a [u8] },
    Delete { id: &'a [u8] },
}
