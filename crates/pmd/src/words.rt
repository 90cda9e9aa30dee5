//! The words of the command line.
use pm_top::Status;
use std::alloc::Global;
use std::env;
use std::rt::Env;

/// The words behind the program's name. A word that is no text makes a faulty command line.
pub fn read_words<R: Env + AllocGlobal>(rt: &R) -> Result<Vec<String>, Status> {
    let Ok(args) = env::args(rt) else {
        return Err(Status::Usage);
    };
    let mut words = Vec::new(rt.alloc());
    for word in args.skip(1) {
        if words.push(word).is_err() {
            return Err(Status::Memory);
        }
    }
    Ok(words)
}
