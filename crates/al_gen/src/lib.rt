//! Generates a job: a program, and the numbers that it reads.
#![tactic(auto)]

ghost use Rattle.std.specs.Prelude.{◌≡◌, ◌≤◌, IfOk};
ghost use Rattle.al_gen.specs.Generated as spec;

use al_source::Bytes;
use al_source::limits::{MOST_SIZE, MOST_START};
use sqlite_items::Items;
use std::alloc::{AllocError, Global};

/// A program and its input.
#[derive(Drop)]
pub struct Made2 {
    pub source: Bytes,
    pub input: Items<i64>,
}

/// It counts its numbers by their remainder of 16 and adds them up.
const SOURCE: &[u8] = b"long hist[16];
int main(void) {
  long n = inputs();
  long s = 0;
#pragma alter RAW OutOfOrder reduce(+: s)
  for (long i = 0; i < n; i++) {
    hist[input(i) % 16] += 1;
    s += input(i);
  }
  for (long k = 0; k < 16; k++) printf(\"%ld \", hist[k]);
  printf(\"%ld\\n\", s);
  return 0;
}
";

#[tactic(auto, unfolding(crate::specs::Generated::source))]
fn source(alloc: Global) -> Result<Bytes, AllocError>
    ensures { IfOk result (λ text. text ≡ spec.source) }
{
    Items::from_slice(alloc, SOURCE)
}

fn next(x: u32) -> u32
    ensures value { result ≡ spec.next x }
{
    ((u64::from(x) * 1_103_515_245 + 12_345) % 2_147_483_648) as u32
}

#[tactic(auto, using(crate::proofs::States::state_more, crate::proofs::States::input_more))]
fn input(alloc: Global, start: u32, size: u32) -> Result<Items<i64>, AllocError>
    ensures { IfOk result (λ numbers. numbers ≡ spec.input start size) }
{
    let mut x = start;
    let mut numbers = Items::new(alloc);
    for _ in 0..size {
        x = next(x);
        numbers.push(i64::from(x / 65_536))?;
    }
    Ok(numbers)
}

/// The program and `size` numbers, which depend on `start` alone.
pub fn make(alloc: Global, start: u32, size: u32) -> Result<Made2, AllocError>
    requires start { start ≤ MOST_START }
    requires size { (1 ≤ size) × (size ≤ MOST_SIZE) }
    ensures { IfOk result (λ made. made ≡ spec.made start size) }
{
    let source = source(alloc)?;
    let input = input(alloc, start, size)?;
    Ok(Made2 { source, input })
}
