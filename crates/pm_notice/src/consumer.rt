//! The body of a subscription.
ghost use Rattle.std.specs.Prelude.{◌≡◌, ◌<◌, length};
ghost use Rattle.std.specs.List.{list_all};
ghost use Rattle.serde_json.specs.View.{view};
ghost use Rattle.pm_form.specs.Form.{text_says};
ghost use Rattle.pm_form.specs.Says.{Says};
ghost use Rattle.pm_form.specs.Values.{text};
ghost use Rattle.pm_notice.specs.Consumer.{is_path_char, consumer_path, port_form, consumer_form, is_consumer};
ghost use Rattle.pm_notice.specs.Told.{consumer_content};
ghost use Rattle.std.specs.Prelude.{ℕ, List};

use pm_base::Text;
use pm_form::{ReadError, Refusal, copied_if, json_tree, text_in, values_of, whole_in};
use serde_json::Value;
use std::alloc::Global;

/// The most bytes of a path.
const PATH_BYTES: usize = 128;

/// What a body says: where the notices go.
#[derive(Drop)]
pub(crate) struct ReadConsumer {
    pub(crate) path: Text,
    pub(crate) port: u16,
}

fn has_path_alphabet(bytes: &[u8]) -> bool
    ensures { result ≡ list_all is_path_char bytes.now }
{
    bytes.iter().all(|b| b.is_ascii_alphanumeric()
        || *b == b'/'
        || *b == b'.'
        || *b == b'_'
        || *b == b'-')
}

fn is_consumer_path(bytes: &[u8]) -> bool
    ensures { result ≡ consumer_path bytes.now }
{
    1 <= bytes.len() && bytes.len() <= PATH_BYTES && has_path_alphabet(bytes) && bytes[0] == b'/'
}

/// Whether notices may go to a path at a port.
pub(crate) fn is_consumer(port: u16, path: &[u8]) -> bool
    ensures { result ≡ is_consumer port path.now }
{
    1 <= port && is_consumer_path(path)
}

fn path_in(alloc: Global, value: &Value) -> Result<Text, ReadError>
    ensures { Says result (λ (s : List ℕ). s) ((text consumer_path).reads (view value.now)) }
{
    let bytes = text_in(value)?;
    copied_if(alloc, bytes, is_consumer_path(bytes))
}

fn port_in(value: &Value) -> Result<u16, ReadError>
    ensures { Says result (λ (n : ℕ). n) (port_form.reads (view value.now)) }
{
    let port = whole_in(value, 65535)?;
    if port < 1 {
        return Err(ReadError::Refused(Refusal::WrongNumber));
    }
    Ok(port as u16)
}

#[tactic(auto, unfolding(crate::specs::Consumer::consumer_form))]
fn consumer_in(alloc: Global, value: &Value) -> Result<ReadConsumer, ReadError>
    ensures { Says result consumer_content (consumer_form.reads (view value.now)) }
{
    let mut values = values_of(value, &["consumerPath", "consumerPort"])?;
    let Some(path) = values.next() else {
        return Err(ReadError::Refused(Refusal::WrongKeys));
    };
    let path = path_in(alloc, path)?;
    let Some(port) = values.next() else {
        return Err(ReadError::Refused(Refusal::WrongKeys));
    };
    let port = port_in(port)?;
    Ok(ReadConsumer { path, port })
}

/// Where the notices go, as a body says.
pub(crate) fn read_consumer(alloc: Global, bytes: &[u8]) -> Result<ReadConsumer, ReadError>
    ensures { Says result consumer_content (text_says consumer_form bytes.now) }
{
    let tree = json_tree(alloc, bytes)?;
    consumer_in(alloc, &tree)
}
