//! The tally of a counter, from bytes to bytes.
ghost use Rattle.std.specs.Prelude.{List, [], ◌≤◌};

use pm_base::Code;
use pm_disk::MemDisk;
use pm_outside::{Failed, Feed, Line, MemCourier, MemLink, MemSink, MemSource, Source};
use pm_tally::{PlainTally, plain_tally};
use pm_top::{Status, pmd};
use std::alloc::{AllocError, Global};
use std::process::Abort;
use std::test::Fail;

// What the tables write `c7`, `d7` and `Att` for.
const CELL: &str = "ManagedElement=ME1,GNBCUCPFunction=1,NRCellCU=7";

const DU_CELL: &str = "ManagedElement=ME1,GNBDUFunction=1,NRCellDU=7";

const ATTEMPTS: &str = "RRC.ConnEstabAtt.mo-Data";

const ROOM: u64 = 65536;

pub fn spelled(alloc: Global, short: &str) -> Result<String, AllocError> {
    let cells = short.replace(alloc, "c7", CELL)?;
    let named = cells.replace(alloc, "d7", DU_CELL)?;
    named.replace(alloc, "Att", ATTEMPTS)
}

pub fn words(alloc: Global, from: &[&str]) -> Result<Vec<String>, AllocError> {
    let mut words = Vec::new(alloc);
    for word in from {
        words.push(String::from_str(alloc, word)?)?;
    }
    Ok(words)
}

/// A link that has no reply.
pub fn no_link(alloc: Global) -> Result<MemLink, AllocError> {
    MemLink::new(alloc, Vec::new(alloc), &[])
}

/// A source that gives at most so many bytes a read.
#[derive(Drop)]
struct Slow<'a> {
    left: &'a [u8],
    most: usize,
}

impl Source for Slow<'_> {
    ghost IsTold = { ⊥ };

    ghost left = { λ _. [] };

    ghost faults = { λ _. 0 };

    fn read(&mut self, buf: &mut [u8]) -> Result<usize, Failed> {
        let count = self.left.len().min(buf.len()).min(self.most);
        buf[..count].copy_from_slice(&self.left[..count]);
        self.left = &self.left[count..];
        Ok(count)
    }
}

#[test]
fn the_rows_are_tallied_as_by_hand(rt: HostRuntime) -> Result<(), Fail> {
    let alloc = rt.alloc();
    let rows = [
        (
            "end\n1699999200 c7 Att 2\n1699999259 c7 Att 3\n",
            "1699999200 c7 Att 5\n",
            Status::Done,
        ),
        ("end\n", "", Status::Done),
        (
            "end\n60 c7 RRC.ConnMax 3\n60 c7 RRC.ConnMax 4\n60 c7 RRC.ConnMean 3\n60 c7 RRC.ConnMean 4\n",
            "60 c7 RRC.ConnMean 3\n60 c7 RRC.ConnMax 4\n",
            Status::Done,
        ),
        (
            "end\n60 d7 VS.SetupTime 10\n60 d7 VS.SetupTime 20\n60 d7 VS.SetupTime 30\n60 d7 VS.SetupTime 40\n",
            "60 d7 VS.SetupTime 30\n",
            Status::Done,
        ),
        (
            "end\n60 d7 VS.SetupTime 10\n60 d7 VS.SetupTime 20\n120 d7 VS.SetupTime 30\n",
            "",
            Status::Done,
        ),
        (
            "end\n1699999200 c7 Att 1\n1699999261 c7 Att\n",
            "",
            Status::BadInput {
                place: 3,
                code: Code::E1,
            },
        ),
    ];
    for (input, output, status) in rows {
        let given = spelled(alloc, input)?;
        let want = spelled(alloc, output)?;
        let mut source = MemSource::new(alloc, given.as_bytes(), &[])?;
        let mut sink = MemSink::new(alloc, ROOM, &[])?;
        let mut disk = MemDisk::new(alloc, 0, &[])?;
        let mut courier = MemCourier::new(alloc, 0, 0, &[])?;
        let tally = words(alloc, &["tally"])?;
        assert_eq!(rt;
            pmd(
                alloc,
                &tally,
                &mut source,
                &mut sink,
                &mut disk,
                &mut courier,
                &mut no_link(alloc)?
            ),
            status,
            "at {input:?}"
        );
        assert_eq!(rt; sink.written(), want.as_bytes(), "at {input:?}");
    }
    Ok(())
}

#[test]
fn other_words_than_those_of_a_command_are_refused(rt: HostRuntime) -> Result<(), Fail> {
    let alloc = rt.alloc();
    let rows: [&[&str]; 14] = [
        &[],
        &["tally", "x"],
        &["x"],
        &["run"],
        &["run", "--boot"],
        &["run", "--boot", "x"],
        &["run", "--boot=253402300800"],
        &["run", "--boot=1", "--boot=1"],
        &["run", "--workers=17", "--boot=1"],
        &["run", "--", "--boot=1"],
        &["collect"],
        &["collect", "--port=0"],
        &["collect", "--port", "65536"],
        &["collect", "--port=1", "x"],
    ];
    for row in rows {
        let mut source = MemSource::new(alloc, b"end\n", &[])?;
        let mut sink = MemSink::new(alloc, ROOM, &[])?;
        let mut disk = MemDisk::new(alloc, 0, &[])?;
        let mut courier = MemCourier::new(alloc, 0, 0, &[])?;
        let other = words(alloc, row)?;
        assert_eq!(rt;
            pmd(
                alloc,
                &other,
                &mut source,
                &mut sink,
                &mut disk,
                &mut courier,
                &mut no_link(alloc)?
            ),
            Status::Usage
        );
    }
    Ok(())
}

// A source that gives so many bytes at a time ends as the plain tally of its bytes does, which is the answer.
pub fn compare(
    rt: &impl Abort,
    alloc: Global,
    input: &[u8],
    at: usize,
) -> Result<PlainTally, Fail> {
    assert!(rt; input.len() < 1_099_511_627_776);
    let plain = plain_tally(alloc, input)?;
    let tally = words(alloc, &["tally"])?;
    for most in [1, 7, input.len() + 1] {
        let mut source = Slow { left: input, most };
        let mut sink = MemSink::new(alloc, ROOM, &[])?;
        let mut disk = MemDisk::new(alloc, 0, &[])?;
        let mut courier = MemCourier::new(alloc, 0, 0, &[])?;
        assert_eq!(rt;
            pmd(
                alloc,
                &tally,
                &mut source,
                &mut sink,
                &mut disk,
                &mut courier,
                &mut no_link(alloc)?
            ),
            Status::from(plain.end),
            "row {at} by {most}"
        );
        assert_eq!(rt; sink.written(), plain.text.as_bytes(), "row {at} by {most}");
    }
    Ok(plain)
}

#[test]
fn each_input_is_tallied_as_it_is_defined(rt: HostRuntime) -> Result<(), Fail> {
    let alloc = rt.alloc();
    let rows = [
        ("end\n60 c7 Att 1\n61 c7 Att 2\n119 c7 Att 3\n", None),
        ("end\n0 c7 Att 1\n600 c7 Att 1048575\n660 c7 Att 0\n", None),
        ("end\n60 c7 Att 1\n120 c7 Att 2", None),
        ("end", None),
        ("end\n060 c7 Att 0000000007\n", None),
        ("end\n60 c7 Att 1048576\n", Some((2, Code::E3))),
        ("end\n120 c7 Att 1\n119 c7 Att 1\n", Some((3, Code::E5))),
        (
            "end\n120 c7 Att 1\n119 c7 Att 1048576\n",
            Some((3, Code::E3)),
        ),
        ("end\n0000000000060 c7 Att 1\n", Some((2, Code::E1))),
        ("end\n253402300800 c7 Att 1\n", Some((2, Code::E1))),
        ("end\n60  c7 Att 1\n", Some((2, Code::E1))),
        ("end\n0 c7 Att 1\n60 c7 Att 1\r\n", Some((3, Code::E1))),
        ("end\n60 c7 Att 1\n120 c8 Att 1\n", Some((3, Code::E2))),
        ("end\n\n60 c7 Att 1\n", Some((2, Code::E1))),
    ];
    for (at, (input, refused)) in rows.iter().enumerate() {
        let given = spelled(alloc, input)?;
        let want = match *refused {
            None => Status::Done,
            Some((place, code)) => Status::BadInput { place, code },
        };
        assert_eq!(rt;
            Status::from(compare(&rt, alloc, given.as_bytes(), at)?.end),
            want,
            "row {at}"
        );
    }
    Ok(())
}

#[test]
fn a_line_of_2049_bytes_has_not_the_form(rt: HostRuntime) -> Result<(), Fail> {
    let alloc = rt.alloc();
    // A metric of 1,995 bytes makes a line of 2,048.
    for (bytes, code) in [(1995, Code::E2), (1996, Code::E1)] {
        let metric = "x".repeat(alloc, bytes)?;
        let line = format!(in alloc; "end\n60 {CELL} {metric} 1\n")?;
        let want = Status::BadInput { place: 2, code };
        assert_eq!(rt;
            Status::from(compare(&rt, alloc, line.as_bytes(), bytes)?.end),
            want
        );
    }
    Ok(())
}

#[test]
fn faults_end_a_tally_after_the_lines_of_ended_ticks(rt: HostRuntime) -> Result<(), Fail> {
    let alloc = rt.alloc();
    let input = spelled(alloc, "end\n60 c7 Att 1\n120 c7 Att 2\n")?;
    let written = spelled(alloc, "60 c7 Att 1\n")?;
    let tally = words(alloc, &["tally"])?;

    let mut source = MemSource::new(alloc, input.as_bytes(), &[2])?;
    let mut sink = MemSink::new(alloc, ROOM, &[])?;
    let mut disk = MemDisk::new(alloc, 0, &[])?;
    let mut courier = MemCourier::new(alloc, 0, 0, &[])?;
    assert_eq!(rt;
        pmd(
            alloc,
            &tally,
            &mut source,
            &mut sink,
            &mut disk,
            &mut courier,
            &mut no_link(alloc)?
        ),
        Status::ReadFault
    );
    assert_eq!(rt; sink.written(), written.as_bytes());
    assert_eq!(rt; source.faults(), 1);

    let mut source = MemSource::new(alloc, input.as_bytes(), &[])?;
    let mut sink = MemSink::new(alloc, ROOM, &[1])?;
    let mut disk = MemDisk::new(alloc, 0, &[])?;
    let mut courier = MemCourier::new(alloc, 0, 0, &[])?;
    assert_eq!(rt;
        pmd(
            alloc,
            &tally,
            &mut source,
            &mut sink,
            &mut disk,
            &mut courier,
            &mut no_link(alloc)?
        ),
        Status::WriteFault
    );
    assert_eq!(rt; sink.written(), b"".as_slice());
    assert_eq!(rt; sink.faults(), 1);
    Ok(())
}

#[test]
fn a_feed_gives_lines_and_bytes_in_turn(rt: HostRuntime) -> Result<(), Fail> {
    let alloc = rt.alloc();
    let mut feed = Feed::new(alloc)?;
    let mut source = MemSource::new(alloc, b"ab\ncd", &[])?;
    assert_eq!(rt; feed.line(&mut source)?, Line::Whole { length: 2 });
    assert_eq!(rt; feed.bytes(), b"ab".as_slice());
    assert_eq!(rt; feed.given(), 3);
    let mut byte = [0; 1];
    assert_eq!(rt; feed.take(&mut source, &mut byte)?, 1);
    assert_eq!(rt; byte, *b"c");
    assert_eq!(rt; feed.bytes(), b"".as_slice());
    assert_eq!(rt; feed.line(&mut source)?, Line::Whole { length: 1 });
    assert_eq!(rt; feed.bytes(), b"d".as_slice());
    assert_eq!(rt; feed.given(), 5);
    assert_eq!(rt; feed.line(&mut source)?, Line::End);
    Ok(())
}

#[test]
fn a_long_line_stays_in_a_feed(rt: HostRuntime) -> Result<(), Fail> {
    let alloc = rt.alloc();
    let mut feed = Feed::new(alloc)?;
    let mut source = MemSource::new(alloc, &[b'x'; 2049], &[])?;
    assert_eq!(rt; feed.line(&mut source)?, Line::Long);
    assert_eq!(rt; feed.given(), 0);
    let mut bytes = [0; 4096];
    assert_eq!(rt; feed.take(&mut source, &mut bytes)?, 2049);
    assert_eq!(rt; feed.given(), 2049);
    assert_eq!(rt; feed.line(&mut source)?, Line::End);
    Ok(())
}
