//! Which request takes which route.
ghost use Rattle.std.specs.Prelude.{◌≡◌, ◌≢◌, ◌≤◌, ◌++◌, ℕ, List, length, Ok, Err, MatchOption, IsUtf8};
ghost use Rattle.pm_http.specs.Resource.{IsPathOf, front_of, IsPartOf};
ghost use Rattle.pm_http.specs.Target.{path_of, query_of};
ghost use Rattle.pm_http.specs.Route.{IsRouted, IsResource, IsTakenBy, IsRefusal, route_at};

use crate::cutting::path_and_query;
use crate::kind::Kind;
use crate::method::{Method, method_of};
use crate::{Request, Route, RouteError, Router};
use pm_base::Text;
use std::alloc::Global;

/// The route of a request, by a router that is made within the call. A path that is no UTF-8 text is no resource's.
pub fn route(alloc: Global, request: &Request) -> Result<Route, RouteError>
    ensures { result ≢ Err RouteError.Memory → IsRouted request.now.method request.now.target result }
{
    let Ok(router) = Router::new(alloc) else {
        return Err(RouteError::Memory);
    };
    router.route(alloc, request)
}

impl Router {
    /// The route of a request. A path that is no UTF-8 text is no resource's.
    pub fn route(&self, alloc: Global, request: &Request) -> Result<Route, RouteError>
        ensures { IsRouted request.now.method request.now.target result }
    {
        let (path, query) = path_and_query(request.target.as_bytes());
        match resource_of(self, path) {
            Some(kind) => route_on(alloc, kind, request.method.as_bytes(), path, query),
            None => Err(RouteError::H5),
        }
    }
}

// The kind of the resource that a path names.
fn resource_of(router: &Router, path: &[u8]) -> Option<Kind>
    ensures { MatchOption result ((k : Kind) → ¬ IsResource k path.now) (λ k. IsResource k path.now) }
{
    match str::from_utf8(path) {
        Ok(text) => router.kind_of(text),
        Err(_) => None,
    }
}

// The route on a resource of this kind.
fn route_on(
    alloc: Global,
    kind: Kind,
    method: &[u8],
    path: &[u8],
    query: &[u8],
) -> Result<Route, RouteError>
    requires path { IsPathOf kind path.now }
    requires short { (length path.now ≤ 65535) × (length query.now ≤ 65535) }
    ensures { IsTakenBy kind method.now path.now query.now result }
{
    let Some(method) = method_of(method) else {
        return Err(not_taken(alloc, kind));
    };
    let Ok(part) = Text::from_slice(alloc, part_of(kind, path)) else {
        return Err(RouteError::Memory);
    };
    let Ok(query) = Text::from_slice(alloc, query) else {
        return Err(RouteError::Memory);
    };
    match route_by(kind, method, part, query) {
        Some(route) => Ok(route),
        None => Err(not_taken(alloc, kind)),
    }
}

// What follows the fixed text of a path.
fn part_of(kind: Kind, path: &[u8]) -> &[u8]
    requires { IsPathOf kind path.now }
    ensures part { IsPartOf kind result.now }
    ensures split { path.now ≡ front_of kind ++ result.now }
{
    match kind {
        Kind::Job => &path["/jobs/".len()..],
        Kind::Monitor => &path["/monitors/".len()..],
        Kind::Subscription => &path["/subscriptions/".len()..],
        Kind::Files => &path["/files".len()..],
        Kind::File => &path["/files/".len()..],
        Kind::Events => &path["/events".len()..],
    }
}

// The route of a method on a resource.
fn route_by(kind: Kind, method: Method, part: Text, query: Text) -> Option<Route>
    ensures { result ≡ route_at kind method part query }
{
    match kind {
        Kind::Job => job_route(method, part),
        Kind::Monitor => monitor_route(method, part),
        Kind::Subscription => subscription_route(method, part),
        Kind::Files if method == Method::Get => Some(Route::Files { query }),
        Kind::File if method == Method::Get => Some(Route::File { name: part }),
        Kind::Events if method == Method::Post => Some(Route::Events),
        Kind::Files | Kind::File | Kind::Events => None,
    }
}

fn job_route(method: Method, id: Text) -> Option<Route>
    ensures { (query : List ℕ) → result ≡ route_at Kind.Job method id query }
{
    match method {
        Method::Get => Some(Route::JobGet { id }),
        Method::Put => Some(Route::JobPut { id }),
        Method::Patch => Some(Route::JobPatch { id }),
        Method::Delete => Some(Route::JobDelete { id }),
        Method::Post => None,
    }
}

fn monitor_route(method: Method, id: Text) -> Option<Route>
    ensures { (query : List ℕ) → result ≡ route_at Kind.Monitor method id query }
{
    match method {
        Method::Get => Some(Route::MonitorGet { id }),
        Method::Put => Some(Route::MonitorPut { id }),
        Method::Patch => Some(Route::MonitorPatch { id }),
        Method::Delete => Some(Route::MonitorDelete { id }),
        Method::Post => None,
    }
}

fn subscription_route(method: Method, id: Text) -> Option<Route>
    ensures { (query : List ℕ) → result ≡ route_at Kind.Subscription method id query }
{
    match method {
        Method::Put => Some(Route::SubscriptionPut { id }),
        Method::Delete => Some(Route::SubscriptionDelete { id }),
        _ => None,
    }
}

// The refusal of a method, or out of memory.
fn not_taken(alloc: Global, kind: Kind) -> RouteError
    ensures { IsRefusal kind result }
{
    let methods: &[u8] = match kind {
        Kind::Job | Kind::Monitor => b"GET, PUT, PATCH, DELETE",
        Kind::Subscription => b"PUT, DELETE",
        Kind::Files | Kind::File => b"GET",
        Kind::Events => b"POST",
    };
    match Text::from_slice(alloc, methods) {
        Ok(allow) => RouteError::H6 { allow },
        Err(_) => RouteError::Memory,
    }
}
