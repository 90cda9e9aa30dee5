//! The routes.

use pm_base::Text;

/// What a request asks for. An id or a name holds the bytes in its place of the path, and `query` those after the first
/// `?` of the target; neither is decoded.
#[derive(Debug, Drop)]
pub enum Route {
    JobPut { id: Text },
    JobPatch { id: Text },
    JobDelete { id: Text },
    JobGet { id: Text },
    MonitorPut { id: Text },
    MonitorPatch { id: Text },
    MonitorDelete { id: Text },
    MonitorGet { id: Text },
    SubscriptionPut { id: Text },
    SubscriptionDelete { id: Text },
    Files { query: Text },
    File { name: Text },
    Events,
}
