//! Numbers and their texts, by the rules of inputs.
use al_text::*;
use std::alloc::{AllocError, Global};
use std::test::Fail;

fn is_text(alloc: Global, n: i64, text: &[u8]) -> Result<bool, AllocError> {
    Ok(number_text(alloc, n)?.as_slice() == text)
}

#[test]
fn numbers_have_their_text(rt: HostRuntime) -> Result<(), Fail> {
    assert!(rt; is_text(rt.alloc(), 0, b"0")?);
    assert!(rt; is_text(rt.alloc(), -5, b"-5")?);
    assert!(rt; is_text(rt.alloc(), i64::MAX, b"9223372036854775807")?);
    assert!(rt; is_text(rt.alloc(), i64::MIN, b"-9223372036854775808")?);
    Ok(())
}

fn reads(alloc: Global, text: &[u8], numbers: &[i64]) -> bool {
    match read_numbers(alloc, text) {
        Ok(read) => read.as_slice() == numbers,
        Err(_) => false,
    }
}

#[test]
fn texts_list_numbers(rt: HostRuntime) -> Result<(), Fail> {
    let table: [(&[u8], &[i64]); 8] = [
        (b"", &[]),
        (b" \t\n\x0b\x0c\r", &[]),
        (b" 1\n-2", &[1, -2]),
        (b"1 2 3 4\n", &[1, 2, 3, 4]),
        (b"007 -0\t-00", &[7, 0, 0]),
        (b"9223372036854775807\x0b5", &[i64::MAX, 5]),
        (b"1\r\n-9223372036854775808\n", &[1, i64::MIN]),
        (b"00000000000000000000000012", &[12]),
    ];
    for (text, numbers) in &table {
        assert!(rt; reads(rt.alloc(), text, numbers));
    }
    Ok(())
}

fn faults(alloc: Global, text: &[u8], fault: InputFault) -> bool {
    match read_numbers(alloc, text) {
        Ok(_) => false,
        Err(told) => told == fault,
    }
}

#[test]
fn texts_are_refused(rt: HostRuntime) -> Result<(), Fail> {
    let table: [(&[u8], InputFault); 12] = [
        (b"-", InputFault::NotNumber(1)),
        (b"1 -\n2", InputFault::NotNumber(1)),
        (b"+1", InputFault::NotNumber(1)),
        (b"--1", InputFault::NotNumber(1)),
        (b"1\n2-\n", InputFault::NotNumber(2)),
        (b"1\n\n2 0x3", InputFault::NotNumber(3)),
        (b"1\r2\x0b3\x0c4,5", InputFault::NotNumber(1)),
        (b"\x00", InputFault::NotNumber(1)),
        (b"1\n9223372036854775808\n", InputFault::OutOfRange(2)),
        (b"-9223372036854775809", InputFault::OutOfRange(1)),
        (b"18446744073709551616 x", InputFault::OutOfRange(1)),
        (
            b"\n\n99999999999999999999999999999999999999999",
            InputFault::OutOfRange(3),
        ),
    ];
    for (text, fault) in &table {
        assert!(rt; faults(rt.alloc(), text, *fault));
    }
    Ok(())
}

/// As many lines of one digit, and then a text.
fn lines(alloc: Global, count: usize, last: &[u8]) -> Result<Vec<u8>, AllocError> {
    let mut text = Vec::new(alloc);
    for _ in 0..count {
        text.extend_from_slice(b"7\n")?;
    }
    text.extend_from_slice(last)?;
    Ok(text)
}

#[test]
fn long_texts_are_refused(rt: HostRuntime) -> Result<(), Fail> {
    let full = lines(rt.alloc(), 1_048_576, b"\n\n")?;
    match read_numbers(rt.alloc(), full.as_slice()) {
        Ok(numbers) => assert!(rt; numbers.len() == 1_048_576),
        Err(_) => assert!(rt; false),
    }
    let more = lines(rt.alloc(), 1_048_576, b"x")?;
    assert!(rt; faults(rt.alloc(), more.as_slice(), InputFault::TooMany));
    let bad = lines(rt.alloc(), 1_048_575, b"x")?;
    assert!(rt; faults(rt.alloc(), bad.as_slice(), InputFault::NotNumber(1_048_576)));
    let blank = vec![in rt.alloc(); b' '; 33_554_433]?;
    assert!(rt; faults(rt.alloc(), blank.as_slice(), InputFault::TooLong));
    assert!(rt; reads(rt.alloc(), &blank.as_slice()[1..], &[]));
    Ok(())
}

#[test]
fn numerals_have_their_value(rt: HostRuntime) -> Result<(), Fail> {
    let table: [(&[u8], Option<u64>); 11] = [
        (b"0", Some(0)),
        (b"7", Some(7)),
        (b"10", Some(10)),
        (b"18446744073709551615", Some(u64::MAX)),
        (b"18446744073709551616", None),
        (b"99999999999999999999999", None),
        (b"", None),
        (b"00", None),
        (b"01", None),
        (b"-1", None),
        (b"1 ", None),
    ];
    for (text, value) in &table {
        assert!(rt; numeral(text) == *value);
    }
    Ok(())
}
