//! What a route asks of the state.
use pm_history::Side;
use pm_jobs::Ask;

/// What a route asks of the state.
#[derive(Clone, Copy)]
pub enum Wish<'a> {
    /// A change of a job or a monitor.
    Change { side: Side, ask: Ask<'a> },
    /// To see a job or a monitor of this id.
    Look { side: Side, id: &'a [u8] },
    /// A subscription of the consumer that the body says.
    Subscribe { id: &'a [u8], body: &'a [u8] },
    /// To end a subscription.
    Unsubscribe { id: &'a [u8] },
    /// To count a batch of events.
    Events { body: &'a [u8] },
    /// To see which report files a query shows.
    Files { query: &'a [u8] },
    /// To see the report file of this name.
    File { name: &'a [u8] },
}
