//! What follows from a history by the definitions: reads an inventory and entries, and prints the notices. Where the first word is
//! `closed` they are those that the crates of the product give; where it is `items`, the stored items are printed. No part of the product.
//!
//! After the inventory, up to its line `end`, stands one entry a line:
//!
//!     boot M · now M
//!     event M OBJECT METRIC VALUE 0|1                 1 where it is registered
//!     job M ID GRANULARITY REPORTING LOCKED|UNLOCKED METRIC,.. OBJECT,..
//!     monitor M ID GRANULARITY LOCKED|UNLOCKED OBJECT,.. METRIC,..:UP|DOWN|UP_AND_DOWN:VALUE:HYSTERESIS ..
//!     lock M ID · unlock M ID · delete M ID           a job; mlock, munlock and mdelete a monitor
//!
//! Objects and metrics are numbers, GRANULARITY is in seconds and REPORTING in minutes.
#![tactic(auto)]

mod asking;
mod body;
mod closing;
#[cfg(test)]
mod generated;
mod inventory;
mod items;
mod line;
#[cfg(test)]
mod rows;
mod run;
mod stop;
mod telling;
#[cfg(test)]
mod tests;
mod words;

use run::{Asked, told};
use std::env;
use std::io::{self, Read, Write};
use std::process::ExitCode;
use stop::Stop;

// What the first word of the command line asks for.
fn asked(rt: &HostRuntime) -> Result<Asked, Stop> {
    let Ok(mut words) = env::args(rt) else {
        return Err(Stop::Fault);
    };
    match words.nth(1) {
        Some(word) if word.as_str() == "closed" => Ok(Asked::Closed),
        Some(word) if word.as_str() == "items" => Ok(Asked::Items),
        _ => Ok(Asked::Notices),
    }
}

fn answer(rt: &HostRuntime) -> Result<(), Stop> {
    let asked = asked(rt)?;
    let mut input = Vec::new(rt.alloc());
    let Ok(_) = rt.reader().read_to_end(&mut input) else {
        return Err(Stop::Fault);
    };
    let lines = told(rt.alloc(), asked, input.as_slice())?;
    match io::writer(rt).write_all(lines.as_slice()) {
        Ok(()) => Ok(()),
        Err(_) => Err(Stop::Fault),
    }
}

fn main(rt: HostRuntime) -> ExitCode {
    match answer(&rt) {
        Ok(()) => ExitCode::SUCCESS,
        Err(Stop::Line(number)) => {
            let _ = eprintln!(rt; "{number}");
            ExitCode::from(2)
        }
        Err(_) => ExitCode::from(1),
    }
}
