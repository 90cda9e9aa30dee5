//! A text on its way to a sink. Short parts are gathered, so that few puts are made, and none takes memory.
ghost use Rattle.std.specs.Prelude.{◌≡◌, ◌≢◌, ◌++◌, ℕ, List, [], false, Err};
ghost use Rattle.std.specs.Result.{is_err};
ghost use Rattle.pm_outside.specs.Causes.{faults_after};
ghost use Rattle.pm_http.specs.Reply.{crlf, Writes};
ghost use Rattle.pm_http.specs.Outgoing.{IsOnWay};

use crate::ReplyError;
use arrayvec::ArrayVec;
use pm_outside::Sink;

// How many bytes are gathered.
const ROOM: usize = 512;

/// What is gathered, and whether the sink failed. After a fault nothing more is put.
#[derive(Drop)]
pub struct Outgoing {
    held: ArrayVec<u8, ROOM>,
    failed: bool,
}

impl Outgoing {
    /// Nothing, on its way.
    pub fn new() -> Outgoing
        ensures empty { result.held.items ≡ [] }
        ensures good { result.failed ≡ false }
    {
        Outgoing {
            held: ArrayVec::new(),
            failed: false,
        }
    }

    /// Appends a part to the text.
    pub fn pass<K: Sink>(&mut self, sink: &mut K, part: &[u8])
        ensures on { K.IsTold → (start text : List ℕ) → IsOnWay start text (K.written sink.old) self.old → IsOnWay start (text ++ part.now) (K.written sink.new) self.new }
        ensures counted { (faults : ℕ) → K.faults sink.old ≡ faults_after self.old.failed faults → K.faults sink.new ≡ faults_after self.new.failed faults }
    {
        if self.failed || self.held.try_extend_from_slice(part).is_ok() {
            return;
        }
        self.failed = put_both(sink, self.held.as_slice(), part).is_err();
        self.held.clear();
    }

    /// Appends a name, a value and the end of a line.
    pub fn pass_line<K: Sink>(&mut self, sink: &mut K, name: &[u8], value: &[u8])
        ensures on { K.IsTold → (start text : List ℕ) → IsOnWay start text (K.written sink.old) self.old → IsOnWay start (text ++ (name.now ++ value.now ++ crlf)) (K.written sink.new) self.new }
        ensures counted { (faults : ℕ) → K.faults sink.old ≡ faults_after self.old.failed faults → K.faults sink.new ≡ faults_after self.new.failed faults }
    {
        self.pass(sink, name);
        self.pass(sink, value);
        self.pass(sink, b"\r\n");
    }

    /// Puts what is gathered, and answers whether the whole text was put.
    pub fn finish<K: Sink>(self, sink: &mut K) -> Result<(), ReplyError>
        ensures told { K.IsTold → (start text : List ℕ) → IsOnWay start text (K.written sink.old) self → Writes start (K.written sink.new) text result }
        ensures no_memory { result ≢ Err ReplyError.Memory }
        ensures counted { (faults : ℕ) → K.faults sink.old ≡ faults_after self.failed faults → K.faults sink.new ≡ faults_after (is_err result) faults }
    {
        if self.failed {
            return Err(ReplyError::WriteFault);
        }
        put(sink, self.held.as_slice())
    }
}

fn put_both<K: Sink>(sink: &mut K, first: &[u8], second: &[u8]) -> Result<(), ReplyError>
    ensures told { K.IsTold → Writes (K.written sink.old) (K.written sink.new) (first.now ++ second.now) result }
    ensures no_memory { result ≢ Err ReplyError.Memory }
    ensures counted { K.faults sink.new ≡ faults_after (is_err result) (K.faults sink.old) }
{
    match put(sink, first) {
        Ok(()) => put(sink, second),
        Err(fault) => Err(fault),
    }
}

fn put<K: Sink>(sink: &mut K, bytes: &[u8]) -> Result<(), ReplyError>
    ensures told { K.IsTold → Writes (K.written sink.old) (K.written sink.new) bytes.now result }
    ensures no_memory { result ≢ Err ReplyError.Memory }
    ensures counted { K.faults sink.new ≡ faults_after (is_err result) (K.faults sink.old) }
{
    if bytes.is_empty() {
        return Ok(());
    }
    match sink.put(bytes) {
        Ok(()) => Ok(()),
        Err(_) => Err(ReplyError::WriteFault),
    }
}
