//! The generated job.
use al_gen::*;
use std::test::Fail;

#[test]
fn jobs_are_made(rt: HostRuntime) -> Result<(), Fail> {
    let job = make(rt.alloc(), 1, 3)?;
    assert!(rt; job.input.as_slice() == [16838, 5758, 10113].as_slice());
    let lines: [&[u8]; 13] = [
        b"long hist[16];",
        b"int main(void) {",
        b"  long n = inputs();",
        b"  long s = 0;",
        b"#pragma alter RAW OutOfOrder reduce(+: s)",
        b"  for (long i = 0; i < n; i++) {",
        b"    hist[input(i) % 16] += 1;",
        b"    s += input(i);",
        b"  }",
        b"  for (long k = 0; k < 16; k++) printf(\"%ld \", hist[k]);",
        b"  printf(\"%ld\\n\", s);",
        b"  return 0;",
        b"}",
    ];
    let mut text = Vec::new(rt.alloc());
    for line in &lines {
        text.extend_from_slice(line)?;
        text.push(b'\n')?;
    }
    assert!(rt; job.source.as_slice() == text.as_slice());
    Ok(())
}
