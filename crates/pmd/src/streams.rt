//! The adapters over readers and writers of the system. They count faults and tell no content.
ghost use Rattle.std.specs.Prelude.{[]};

use pm_outside::{Failed, Sink, Source};
use std::io::{Read, Write};

/// A source over a reader, as the standard input.
#[derive(Drop)]
pub struct Reading<R: Read + Drop> {
    reader: R,
    faults: u64,
}

impl<R: Read + Drop> Reading<R> {
    /// A source over the reader, that has not failed yet.
    pub fn new(reader: R) -> Reading<R> {
        Reading { reader, faults: 0 }
    }
}

impl<R: Read + Drop> Source for Reading<R> {
    ghost IsTold = { ⊥ };

    ghost left = { λ s. [] };

    ghost faults = { λ s. s.faults };

    fn read(&mut self, buf: &mut [u8]) -> Result<usize, Failed> {
        match self.reader.read(buf) {
            Ok(count) => Ok(count),
            Err(_) => {
                self.faults = self.faults.saturating_add(1);
                Err(Failed)
            }
        }
    }
}

/// A sink over a writer, as the standard output.
#[derive(Drop)]
pub struct Writing<W: Write + Drop> {
    writer: W,
    faults: u64,
}

impl<W: Write + Drop> Writing<W> {
    /// A sink over the writer, that has not failed yet.
    pub fn new(writer: W) -> Writing<W> {
        Writing { writer, faults: 0 }
    }
}

impl<W: Write + Drop> Sink for Writing<W> {
    ghost IsTold = { ⊥ };

    ghost written = { λ s. [] };

    ghost faults = { λ s. s.faults };

    fn put(&mut self, bytes: &[u8]) -> Result<(), Failed> {
        if self.writer.write_all(bytes).is_ok() && self.writer.flush().is_ok() {
            return Ok(());
        }
        self.faults = self.faults.saturating_add(1);
        Err(Failed)
    }
}

#[cfg(test)]
mod tests {
    use super::*;
    use std::fs::File;
    use std::io::Cursor;
    use std::test::Fail;

    #[test]
    fn a_reader_is_read_and_a_full_writer_is_a_counted_fault(rt: HostRuntime) {
        let mut input = Reading::new(Cursor::new(b"end\n".as_slice()));
        let mut buf = [0u8; 8];
        assert_eq!(rt; input.read(&mut buf), Ok(4));
        assert_eq!(rt; &buf[..4], b"end\n".as_slice());
        assert_eq!(rt; input.read(&mut buf), Ok(0));
        assert_eq!(rt; input.faults, 0);
        let mut room = [0u8; 4];
        let mut output = Writing::new(room.as_mut_slice());
        assert_eq!(rt; output.put(b"12"), Ok(()));
        assert_eq!(rt; output.put(b"345"), Err(Failed));
        assert_eq!(rt; output.faults, 1);
    }

    #[test]
    fn a_folder_is_no_input_and_a_full_device_no_output(rt: HostRuntime) -> Result<(), Fail> {
        let mut input = Reading::new(File::open(&rt, ".")?);
        let mut buf = [0u8; 8];
        assert_eq!(rt; input.read(&mut buf), Err(Failed));
        assert_eq!(rt; input.faults, 1);
        let mut output = Writing::new(File::options().write(true).open(&rt, "/dev/full")?);
        assert_eq!(rt; output.put(b"1"), Err(Failed));
        assert_eq!(rt; output.faults, 1);
        Ok(())
    }
}
