//! Which resource a path names.
ghost use Rattle.std.specs.Prelude.{◌≡◌, None, IfOk, MatchOption, map};
ghost use Rattle.pm_http.specs.Resource.{IsPathOf, table, shape};

use crate::kind::Kind;
use matchit::InsertError;
use std::alloc::{AllocError, Global};

/// The table of paths. It is made once; looking a path up takes no memory.
#[derive(Drop)]
pub struct Router {
    kinds: matchit::Router<Kind>,
    ghost complete: { map shape kinds ≡ table },
}

impl Router {
    /// The router of all resources.
    pub fn new(alloc: Global) -> Result<Router, AllocError> {
        match routes(alloc) {
            Ok(kinds) => Ok(Router { kinds }),
            Err(_) => Err(AllocError),
        }
    }

    // The kind of the resource that a path names.
    pub(crate) fn kind_of(&self, path: &str) -> Option<Kind>
        ensures { MatchOption result ((k : Kind) → ¬ IsPathOf k path.now) (λ k. IsPathOf k path.now) }
    {
        find(&self.kinds, path)
    }
}

// The routes.
fn routes(alloc: Global) -> Result<matchit::Router<Kind>, InsertError>
    ensures { IfOk result (λ router. map shape router ≡ table) }
{
    let mut router = matchit::Router::new(alloc);
    router.insert("/jobs/{id}", Kind::Job)?;
    router.insert("/monitors/{id}", Kind::Monitor)?;
    router.insert("/subscriptions/{id}", Kind::Subscription)?;
    router.insert("/files", Kind::Files)?;
    router.insert("/files/{name}", Kind::File)?;
    router.insert("/events", Kind::Events)?;
    Ok(router)
}

// The kind of the resource that a path names, by these routes.
fn find(router: &matchit::Router<Kind>, path: &str) -> Option<Kind>
    requires { map shape router.now ≡ table }
    ensures { MatchOption result ((k : Kind) → ¬ IsPathOf k path.now) (λ k. IsPathOf k path.now) }
{
    match router.at(path) {
        Ok(found) => Some(*found.value),
        Err(_) => None,
    }
}
