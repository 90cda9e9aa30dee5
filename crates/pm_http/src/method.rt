//! The methods that some resource takes.
ghost use Rattle.std.specs.Prelude.{◌≡◌, ◌≢◌, MatchOption};
ghost use Rattle.pm_http.specs.Route.{method_name};

/// A method (RFC 9110, section 9.3; PATCH is RFC 5789's). Names are compared with case.
#[derive(Clone, Copy, Debug, PartialEq, Eq)]
pub enum Method {
    Get,
    Put,
    Patch,
    Delete,
    Post,
}

/// The method of this name.
pub fn method_of(name: &[u8]) -> Option<Method>
    ensures { MatchOption result ((m : Method) → name.now ≢ method_name m) (λ m. name.now ≡ method_name m) }
{
    if name == b"GET".as_slice() {
        Some(Method::Get)
    } else if name == b"PUT".as_slice() {
        Some(Method::Put)
    } else if name == b"PATCH".as_slice() {
        Some(Method::Patch)
    } else if name == b"DELETE".as_slice() {
        Some(Method::Delete)
    } else if name == b"POST".as_slice() {
        Some(Method::Post)
    } else {
        None
    }
}
