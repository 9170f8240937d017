//! The generator of requests: the same for the same seed.

ghost use Rattle.std.specs.Prelude.{◌≡◌, ◌++◌, ◌<◌, OnOk, OnErr};
ghost use Rattle.alt_lines.specs.Trial.{generator, generator_from, next_line, after_line, next_number, drawn, draws, after_draws};
ghost use Rattle.alt_lines.specs.Drawn.{draws_of};

use crate::requests::{Drawn, create_table, request_of};
use alt_base::NoMemory;

/// Requests that are made from a number. Each of them is one that the program takes.
#[derive(Clone, Copy, Debug)]
pub struct Trial {
    first: bool,
    number: u64,
}

impl Trial {
    pub fn new(seed: u64) -> Trial
        ensures { generator result ≡ generator_from seed }
    {
        Trial {
            first: true,
            number: seed,
        }
    }

    /// Appends the line of the next request, without a line feed.
    pub fn request(&mut self, out: &mut Vec<u8>) -> Result<(), NoMemory>
        ensures line { OnOk result
            (out.new.items ≡ out.old.items ++ next_line (generator self.old)) }
        ensures next { OnOk result (generator self.new ≡ after_line (generator self.old)) }
        ensures err { OnErr result
            ((out.new.items ≡ out.old.items) × (generator self.new ≡ generator self.old)) }
    {
        let mut number = self.number;
        let made = if self.first {
            create_table(out)
        } else {
            request_of(out, draw_all(&mut number))
        };
        match made {
            Ok(()) => {
                self.first = false;
                self.number = number;
                Ok(())
            }
            Err(fault) => Err(fault),
        }
    }
}

/// The draws of one request, in their order.
fn draw_all(number: &mut u64) -> Drawn
    ensures drawn { draws_of result ≡ draws number.old }
    ensures after { number.new ≡ after_draws number.old }
{
    let kind = draw(number, 10);
    let partition = draw(number, 40);
    let range = draw(number, 200);
    let value = draw(number, 1000);
    Drawn {
        kind,
        partition,
        range,
        value,
    }
}

/// A number below `n`.
fn draw(number: &mut u64, n: u64) -> u64
    requires { 0 < n }
    ensures after { number.new ≡ next_number number.old }
    ensures drawn { result ≡ drawn (next_number number.old) n }
{
    *number = number
        .wrapping_mul(6_364_136_223_846_793_005)
        .wrapping_add(1_442_695_040_888_963_407);
    (*number >> 33) % n
}
