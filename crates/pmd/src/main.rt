//! `pmd`, the producer of performance measurements of one managed element, and a collector of its report files.
#![tactic(auto)]

mod store_file;
mod streams;
mod words;

use pm_courier::HttpCourier;
use pm_link::TcpLink;
use pm_top::{Status, pmd};
use std::io;
use std::process::ExitCode;
use store_file::StoreFile;
use streams::{Reading, Writing};
use words::read_words;

fn main(rt: HostRuntime) -> ExitCode {
    let mut disk = StoreFile::new(&rt);
    let mut link = TcpLink::new(&rt);
    let status = match read_words(&rt) {
        Ok(words) => pmd(
            rt.alloc(),
            words.as_slice(),
            &mut Reading::new(rt.reader()),
            &mut Writing::new(io::writer(&rt)),
            &mut disk,
            &mut HttpCourier::new(&rt),
            &mut link,
        ),
        Err(status) => status,
    };
    if status != Status::Done {
        let _ = eprintln!(rt; "pmd: {status}");
    }
    if status == Status::StoreFault
        && let Some(cause) = disk.cause()
    {
        let _ = eprintln!(rt; "pmd: cause: {cause}");
    }
    ExitCode::from(status.exit())
}
