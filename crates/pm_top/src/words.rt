//! The words of the command line: `tally`, `run --boot M [--workers W]`, or `collect --port P`.
ghost use Rattle.std.specs.Prelude.{◌≡◌, ◌++◌, ◌∷◌, [], map, codes, string_bytes, IfSome, MatchOption, None, Some};
ghost use Rattle.pm_top.specs.Words.{value_at, if_last, run_of, collect_of, command_of, tally_of, IsAsked};
ghost use Rattle.pm_top.specs.Words as spoken;

use pm_base::{read_moment, read_number};

/// What the words after the program's name ask for.
#[derive(Clone, Copy, Debug, PartialEq, Eq)]
pub enum Command {
    /// The tally of the events of the input.
    Tally,
    /// One session over the input. The store begins with a Boot at this moment, in seconds since 1970-01-01 UTC. There are 1 to 16 workers.
    Run { boot: u64, workers: u8 },
    /// One run of the collector, from the peer on this port, which isn't 0.
    Collect { port: u16 },
}

// The value of an option, and the words after it.
#[derive(Drop)]
struct Valued<'a> {
    value: &'a [u8],
    rest: &'a [String],
}

/// What the words ask for. None where they are those of no command.
pub fn read_command(words: &[String]) -> Option<Command>
    ensures command { result ≡ command_of (map string_bytes words.now) }
    ensures ranges { IfSome result IsAsked }
{
    let [word, rest @ ..] = words else {
        return None;
    };
    if word.as_str() == "run" {
        return read_run(rest);
    }
    if word.as_str() == "collect" {
        return read_collect(rest);
    }
    if word.as_str() == "tally" {
        return tally_alone(rest);
    }
    None
}

fn tally_alone(words: &[String]) -> Option<Command>
    ensures command { result ≡ tally_of (map string_bytes words.now) }
    ensures ranges { IfSome result IsAsked }
{
    match words {
        [] => Some(Command::Tally),
        _ => None,
    }
}

// The options of `run`, in any order.
fn read_run(words: &[String]) -> Option<Command>
    ensures command { result ≡ run_of (map string_bytes words.now) }
    ensures ranges { IfSome result IsAsked }
{
    match option_at(words, "--boot", b"--boot=") {
        Some(boot) => run_from(boot.value, boot.rest),
        None => run_after(words),
    }
}

// The options after `--boot`: there are 4 workers where none are named.
fn run_from(boot: &[u8], rest: &[String]) -> Option<Command>
    ensures command { result ≡ spoken.run_from boot.now (map string_bytes rest.now) }
    ensures ranges { IfSome result IsAsked }
{
    if rest.is_empty() {
        return run_with(boot, b"4");
    }
    match last_option(rest, "--workers", b"--workers=") {
        Some(workers) => run_with(boot, workers),
        None => None,
    }
}

// `--workers` and then `--boot`.
fn run_after(words: &[String]) -> Option<Command>
    ensures command { result ≡ spoken.run_after (value_at (codes "--workers") (map string_bytes words.now)) }
    ensures ranges { IfSome result IsAsked }
{
    let workers = match option_at(words, "--workers", b"--workers=") {
        Some(workers) => workers,
        None => return None,
    };
    match last_option(workers.rest, "--boot", b"--boot=") {
        Some(boot) => run_with(boot, workers.value),
        None => None,
    }
}

fn run_with(boot: &[u8], workers: &[u8]) -> Option<Command>
    ensures command { result ≡ spoken.run_with boot.now workers.now }
    ensures ranges { IfSome result IsAsked }
{
    let boot = match read_moment(boot) {
        Some(boot) => boot,
        None => return None,
    };
    match read_number(workers, 12) {
        Some(workers @ 1..=16) => Some(Command::Run {
            boot,
            workers: workers as u8,
        }),
        _ => None,
    }
}

fn read_collect(words: &[String]) -> Option<Command>
    ensures command { result ≡ collect_of (map string_bytes words.now) }
    ensures ranges { IfSome result IsAsked }
{
    match last_option(words, "--port", b"--port=") {
        Some(port) => collect_at(port),
        None => None,
    }
}

fn collect_at(port: &[u8]) -> Option<Command>
    ensures command { result ≡ spoken.collect_at port.now }
    ensures ranges { IfSome result IsAsked }
{
    match read_number(port, 12) {
        Some(port @ 1..=65535) => Some(Command::Collect { port: port as u16 }),
        _ => None,
    }
}

// The value of an option that is all that is left.
fn last_option<'a>(words: &'a [String], name: &str, joined: &[u8]) -> Option<&'a [u8]>
    requires { joined.now ≡ name.now ++ 61 ∷ [] }
    ensures { MatchOption result (if_last (value_at name.now (map string_bytes words.now)) ≡ None) (λ value. if_last (value_at name.now (map string_bytes words.now)) ≡ Some value.now) }
{
    match option_at(words, name, joined) {
        Some(valued) if valued.rest.is_empty() => Some(valued.value),
        _ => None,
    }
}

// The option of this name at the front of the words.
fn option_at<'a>(words: &'a [String], name: &str, joined: &[u8]) -> Option<Valued<'a>>
    requires { joined.now ≡ name.now ++ 61 ∷ [] }
    ensures { MatchOption result (value_at name.now (map string_bytes words.now) ≡ None) (λ valued. value_at name.now (map string_bytes words.now) ≡ Some record { value = valued.value.now; rest = map string_bytes valued.rest.now }) }
{
    let [word, rest @ ..] = words else {
        return None;
    };
    if word.as_str() == name {
        return next_value(rest);
    }
    match word.as_bytes().strip_prefix(joined) {
        Some(value) => Some(Valued { value, rest }),
        None => None,
    }
}

fn next_value<'a>(words: &'a [String]) -> Option<Valued<'a>>
    ensures { MatchOption result (spoken.next_value (map string_bytes words.now) ≡ None) (λ valued. spoken.next_value (map string_bytes words.now) ≡ Some record { value = valued.value.now; rest = map string_bytes valued.rest.now }) }
{
    match words {
        [value, rest @ ..] => Some(Valued {
            value: value.as_bytes(),
            rest,
        }),
        [] => None,
    }
}
