//! The lines of the held files.
ghost use Rattle.std.specs.Prelude.{◌≡◌, ◌++◌, ◌⊎◌, [], IfErr, OnOk, Ok, Err, length};
ghost use Rattle.pm_outside.specs.Causes.{faults_after};
ghost use Rattle.pm_fetch.specs.Rows.{row_text, Writes};
ghost use Rattle.pm_fetch.specs.Faults.{names_output, fails_by};

use crate::FetchEnd;
use itoa::Buffer;
use pm_collect::Collector;
use pm_outside::Sink;
use std::alloc::{AllocError, Global};

// How many bytes of lines are put at a time, about.
const ROOM: usize = 65536;

/// Writes a line for each held file, in byte order of the names: the name, a space, and the size in bytes.
pub fn write_rows<K: Sink>(
    alloc: Global,
    collector: &Collector,
    output: &mut K,
) -> Result<(), FetchEnd>
    ensures known { IfErr result (λ e. (e ≡ FetchEnd.WriteFault) ⊎ (e ≡ FetchEnd.Memory)) }
    ensures counted { K.faults output.new ≡ faults_after (fails_by names_output result) (K.faults output.old) }
{
    let mut text = Vec::new(alloc);
    for (name, place) in collector.files() {
        if add_row(&mut text, name.as_slice(), place.size).is_err() {
            return Err(FetchEnd::Memory);
        }
        if text.len() >= ROOM {
            match put(output, &mut text) {
                Ok(()) => {}
                Err(end) => return Err(end),
            }
        }
    }
    put(output, &mut text)
}

// Writes the text, and empties it.
fn put<K: Sink>(output: &mut K, text: &mut Vec<u8>) -> Result<(), FetchEnd>
    ensures written { K.IsTold → Writes text.old.items (K.written output.old) (K.written output.new) result }
    ensures empty { OnOk result (text.new.items ≡ []) }
    ensures known { IfErr result (λ e. e ≡ FetchEnd.WriteFault) }
    ensures counted { K.faults output.new ≡ faults_after (fails_by names_output result) (K.faults output.old) }
{
    if text.is_empty() {
        return Ok(());
    }
    match output.put(text.as_slice()) {
        Ok(()) => {
            text.clear();
            Ok(())
        }
        Err(_) => Err(FetchEnd::WriteFault),
    }
}

// Adds the line of a file.
fn add_row(text: &mut Vec<u8>, name: &[u8], size: u64) -> Result<(), AllocError>
    ensures { OnOk result (text.new.items ≡ text.old.items ++ row_text (name.now, size)) }
{
    let mut digits = Buffer::new();
    text.extend_from_slice(name)?;
    text.push(b' ')?;
    text.extend_from_slice(digits.format(size).as_bytes())?;
    text.push(b'\n')?;
    Ok(())
}
