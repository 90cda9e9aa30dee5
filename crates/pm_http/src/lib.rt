//! Requests read from a stream of bytes, the routes that they take, and the replies that are written.
#![tactic(auto)]

mod answer;
#[cfg(test)]
mod answer_tests;
mod body;
mod connection;
mod cutting;
mod error;
mod fields;
mod head_end;
#[cfg(test)]
mod head_tests;
mod kind;
mod law;
mod method;
mod next;
mod outgoing;
mod piece;
#[cfg(test)]
mod plain_tests;
mod query;
mod reading;
mod refusal;
mod reply;
mod replying;
mod request;
mod resource;
mod routes;
mod routing;
mod sight;
mod size;
#[cfg(test)]
mod stream_tests;
mod taking;
#[cfg(test)]
mod tests;
mod trimming;

pub use answer::{Answer, read_answer};
pub use error::{AnswerError, HttpError, QueryError, ReplyError, RouteError};
pub use law::{one_next, one_step};
pub use next::Next;
pub use query::{Query, read_query};
pub use reading::next_request;
pub use reply::Reply;
pub use replying::write_reply;
pub use request::Request;
pub use resource::Router;
pub use routes::Route;
pub use routing::route;
