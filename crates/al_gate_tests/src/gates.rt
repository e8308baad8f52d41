//! Chunks that run beside one another: what no clause says.
use al_board_tests::Held;
use al_calls::{Asked, File, gives};
use std::test::Fail;

/// How often a wait looks before it is noted.
const LOOKS: u64 = 10_000_000;

const STORES: &str = "long a[3];
int main(void) {
  long *p = a;
#pragma alter RAW InOrder
  for (long i = 0; i < 5; i++) {
    printf(\"%ld \", i);
    p[i] = i;
  }
}
";

/// One chunk is held until the three others have run, which no order of the four on one thread passes, and with another
/// held one no fixed shares of two threads.
#[test]
fn chunks_run_side_by_side(rt: HostRuntime) -> Result<(), Fail> {
    let alloc = rt.alloc();
    let mut files = Vec::new(alloc);
    files.push(File::new(alloc, "p13.c", STORES)?)?;
    let mut asked = Asked::new(alloc);
    asked.status = 3;
    asked.out.add("0 1 2 3 \\")?;
    asked.err.add("alter: p13.c:7: trap: out of bounds")?;
    let words = "run p13.c --lanes 4 --chunk 1 --threads 2";
    for held in [0, 1] {
        let gate = Held::new(held, LOOKS);
        assert!(rt; gives(&rt, alloc, words, files.as_slice(), &asked, &gate)?);
        assert!(rt; gate.is_well());
    }
    Ok(())
}
