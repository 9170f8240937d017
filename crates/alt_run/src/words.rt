//! The words of the command line, read by hand.

ghost use Rattle.std.specs.Prelude.{◌≡◌, ◌<◌, ◌≤◌, ◌^◌, ◌-◌, Some, None, min, option_map, option_and_then, IfSome};
ghost use Rattle.alt_run.specs.Words.{digits_from, number_in_word, number_between, number_in_word_within, flush_of, merge_in_word, some_of, count_in_word, small_seed, seed_of, limits_with, serve_with, trial_with, over, init_of, replay_of, serve_of, trial_of, served_of, run_of, command_of, IsServable, IsFitCommand, port_of, small_port, bytes_of};

use alt_tables::Limits;

// The number of the digits, 2^64 - 1 where it is greater.
fn digits(word: &[u8]) -> Option<u64>
    ensures { result ≡ option_map (λ n. min n (2 ^ 64 - 1)) (digits_from 0 word.now) }
{
    let mut number: u64 = 0;
    for digit in word {
        if !digit.is_ascii_digit() {
            return None;
        }
        number = number
            .saturating_mul(10)
            .saturating_add(u64::from(*digit - b'0'));
    }
    Some(number)
}

fn number(word: &[u8]) -> Option<u64>
    ensures { result ≡ option_map (λ n. min n (2 ^ 64 - 1)) (number_in_word word.now) }
{
    match word {
        [] => None,
        [b'0', _, ..] => None,
        _ => digits(word),
    }
}

// The number of the digits, where it is below 2^64.
fn seed_digits(word: &[u8]) -> Option<u64>
    ensures { result ≡ option_and_then small_seed (digits_from 0 word.now) }
{
    let mut number: u64 = 0;
    for digit in word {
        if !digit.is_ascii_digit() {
            return None;
        }
        let Some(more) = number.checked_mul(10) else {
            return None;
        };
        let Some(sum) = more.checked_add(u64::from(*digit - b'0')) else {
            return None;
        };
        number = sum;
    }
    Some(number)
}

/// A number below 2^64.
fn seed(word: &[u8]) -> Option<u64>
    ensures { result ≡ seed_of word.now }
{
    match word {
        [] => None,
        [b'0', _next, ..] => None,
        _ => seed_digits(word),
    }
}

/// A number from the least to the most.
#[tactic(auto, using(crate::proofs::Numbers::within_capped))]
fn number_within(least: u64, most: u64, word: &[u8]) -> Option<u64>
    requires { most < 2 ^ 64 - 1 }
    ensures number { result ≡ number_in_word_within least most word.now }
    ensures least { IfSome result (λ n. least ≤ n) }
    ensures most { IfSome result (λ n. n ≤ most) }
{
    match number(word) {
        Some(number) => within(least, most, number),
        None => None,
    }
}

fn within(least: u64, most: u64, number: u64) -> Option<u64>
    ensures number { result ≡ number_between least most number }
    ensures least { IfSome result (λ n. least ≤ n) }
    ensures most { IfSome result (λ n. n ≤ most) }
{
    if least <= number && number <= most {
        Some(number)
    } else {
        None
    }
}

/// What words ask for.
#[derive(Clone, Copy, Debug, PartialEq, Eq)]
pub enum Command {
    /// To make an empty store.
    Init,
    /// A job over the store that is there, whose engine has these limits.
    Over { job: Job, limits: Limits },
}

/// What a run over a store is to do.
#[derive(Clone, Copy, Debug, PartialEq, Eq)]
pub enum Job {
    /// Requests as lines of standard input.
    Replay,
    /// So many connections, one after another, with so many requests at most on each.
    Serve { per: u32, connections: u32 },
    /// So many requests that this number makes, and a summary of their replies.
    Trial { seed: u64, count: u32 },
}

/// From how many bytes on a family is flushed: 65,536 to 1,073,741,824.
fn flush(word: &[u8]) -> Option<u64>
    ensures { result ≡ flush_of word.now }
{
    number_within(65_536, 1_073_741_824, word)
}

/// From how many files on a family is merged: 2 to 64.
fn merge(word: &[u8]) -> Option<u32>
    ensures { result ≡ merge_in_word word.now }
{
    match number_within(2, 64, word) {
        Some(number) => Some(number as u32),
        None => None,
    }
}

/// A number from 1 to 4,294,967,295.
fn some(word: &[u8]) -> Option<u32>
    ensures number { result ≡ some_of word.now }
    ensures some { IfSome result (λ n. 0 < n) }
{
    match number_within(1, 4_294_967_295, word) {
        Some(number) => Some(number as u32),
        None => None,
    }
}

/// A number from 1 to 1,000,000.
fn count(word: &[u8]) -> Option<u32>
    ensures number { result ≡ count_in_word word.now }
    ensures some { IfSome result (λ n. 0 < n) }
{
    match number_within(1, 1_000_000, word) {
        Some(number) => Some(number as u32),
        None => None,
    }
}

/// The limits of an engine.
fn limits(flush: Option<u64>, merge: Option<u32>) -> Option<Limits>
    ensures { result ≡ limits_with flush merge }
{
    match (flush, merge) {
        (Some(flush), Some(merge)) => Some(Limits { flush, merge }),
        _ => None,
    }
}

fn serve_with(per: Option<u32>, connections: Option<u32>) -> Option<Job>
    requires some { IfSome per (λ n. 0 < n) }
    ensures job { result ≡ serve_with per connections }
    ensures servable { IfSome result IsServable }
{
    match (per, connections) {
        (Some(per), Some(connections)) => Some(Job::Serve { per, connections }),
        _ => None,
    }
}

fn trial_with(seed: Option<u64>, count: Option<u32>) -> Option<Job>
    requires some { IfSome count (λ n. 0 < n) }
    ensures job { result ≡ trial_with seed count }
    ensures servable { IfSome result IsServable }
{
    match (seed, count) {
        (Some(seed), Some(count)) => Some(Job::Trial { seed, count }),
        _ => None,
    }
}

/// A job over a store whose engine has these limits, where both are there.
fn over(job: Option<Job>, limits: Option<Limits>) -> Option<Command>
    requires servable { IfSome job IsServable }
    ensures command { result ≡ over job limits }
    ensures servable { IfSome result IsFitCommand }
{
    match (job, limits) {
        (Some(job), Some(limits)) => Some(Command::Over { job, limits }),
        _ => None,
    }
}

fn init_of(words: &[String]) -> Option<Command>
    ensures command { result ≡ init_of (bytes_of words.now) }
    ensures servable { IfSome result IsFitCommand }
{
    match words {
        [word] => {
            if word.as_str() == "init" {
                Some(Command::Init)
            } else {
                None
            }
        }
        _ => None,
    }
}

fn replay_of(words: &[String]) -> Option<Command>
    ensures command { result ≡ replay_of (bytes_of words.now) }
    ensures servable { IfSome result IsFitCommand }
{
    match words {
        [word, flushing, merging] => {
            if word.as_str() == "replay" {
                let limits = limits(flush(flushing.as_bytes()), merge(merging.as_bytes()));
                over(Some(Job::Replay), limits)
            } else {
                None
            }
        }
        _ => None,
    }
}

fn serve_of(words: &[String]) -> Option<Command>
    ensures command { result ≡ serve_of (bytes_of words.now) }
    ensures servable { IfSome result IsFitCommand }
{
    match words {
        [word, per, connections, flushing, merging] => {
            if word.as_str() == "serve" {
                let job = serve_with(some(per.as_bytes()), some(connections.as_bytes()));
                let limits = limits(flush(flushing.as_bytes()), merge(merging.as_bytes()));
                over(job, limits)
            } else {
                None
            }
        }
        _ => None,
    }
}

fn trial_of(words: &[String]) -> Option<Command>
    ensures command { result ≡ trial_of (bytes_of words.now) }
    ensures servable { IfSome result IsFitCommand }
{
    match words {
        [word, seeding, counting, flushing, merging] => {
            if word.as_str() == "trial" {
                let job = trial_with(seed(seeding.as_bytes()), count(counting.as_bytes()));
                let limits = limits(flush(flushing.as_bytes()), merge(merging.as_bytes()));
                over(job, limits)
            } else {
                None
            }
        }
        _ => None,
    }
}

fn served_of(words: &[String]) -> Option<Command>
    ensures command { result ≡ served_of (bytes_of words.now) }
    ensures servable { IfSome result IsFitCommand }
{
    match serve_of(words) {
        Some(command) => Some(command),
        None => trial_of(words),
    }
}

/// The job over a store that words ask for.
fn run_of(words: &[String]) -> Option<Command>
    ensures command { result ≡ run_of (bytes_of words.now) }
    ensures servable { IfSome result IsFitCommand }
{
    match replay_of(words) {
        Some(command) => Some(command),
        None => served_of(words),
    }
}

/// What the words behind folder and port ask for: `init`, `replay FLUSH MERGE`, `serve PER CONNECTIONS FLUSH MERGE`, or
/// `trial SEED COUNT FLUSH MERGE`. FLUSH is from 65,536 to 1,073,741,824 bytes, MERGE from 2 to 64 files, PER and CONNECTIONS from 1 to
/// 4,294,967,295, SEED from 0 to 18,446,744,073,709,551,615 and COUNT from 1 to 1,000,000.
pub fn command_of(words: &[String]) -> Option<Command>
    ensures command { result ≡ command_of (bytes_of words.now) }
    ensures servable { IfSome result IsFitCommand }
{
    match init_of(words) {
        Some(command) => Some(command),
        None => run_of(words),
    }
}

fn small_port(number: u64) -> Option<u16>
    ensures { result ≡ small_port number }
{
    if number <= 65_535 {
        Some(number as u16)
    } else {
        None
    }
}

/// The port: the second word, `None` exactly where there are fewer than two words or the second is no number of at most
/// 65,535 in decimal digits without sign or leading zeros.
#[tactic(auto, using(crate::proofs::Numbers::port_capped))]
pub fn port_of(words: &[String]) -> Option<u16>
    ensures { result ≡ port_of (bytes_of words.now) }
{
    match words {
        [_, port, ..] => match number(port.as_bytes()) {
            Some(number) => small_port(number),
            None => None,
        },
        _ => None,
    }
}
