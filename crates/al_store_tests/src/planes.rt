//! Planes of bits of several lengths.
use al_planes::{planes_join, planes_meet};
use std::alloc::AllocError;
use std::test::Fail;

/// So many numbers with one bit in one of them.
fn with_bit(rt: &HostRuntime, len: usize, place: usize, bit: u32) -> Result<Vec<u64>, AllocError> {
    let mut planes = vec![in rt.alloc(); 0; len]?;
    for (i, number) in planes.iter_mut().enumerate() {
        if i == place {
            *number = 1u64.wrapping_shl(bit);
        }
    }
    Ok(planes)
}

#[test]
fn each_bit_meets_itself(rt: HostRuntime) -> Result<(), Fail> {
    for len in [0, 1, 8, 9, 17] {
        for place in 0..len {
            for bit in [0, 1, 31, 63] {
                let one = with_bit(&rt, len, place, bit)?;
                let same = with_bit(&rt, len, place, bit)?;
                let other = with_bit(&rt, len, place, bit ^ 1)?;
                let none = with_bit(&rt, len, len, 0)?;
                assert_eq!(rt; one.len(), len);
                assert_eq!(rt; same.len(), len);
                assert_eq!(rt; other.len(), len);
                assert_eq!(rt; none.len(), len);
                assert!(rt; planes_meet(one.as_slice(), same.as_slice()));
                assert!(rt; !planes_meet(one.as_slice(), other.as_slice()));
                assert!(rt; !planes_meet(one.as_slice(), none.as_slice()));
            }
        }
    }
    Ok(())
}

#[test]
fn joined_planes_have_the_bits_of_both(rt: HostRuntime) -> Result<(), Fail> {
    for len in [0, 1, 8, 9, 17] {
        for place in 0..len {
            let mut all = with_bit(&rt, len, place, 5)?;
            let more = with_bit(&rt, len, len - 1, 6)?;
            assert_eq!(rt; all.len(), len);
            assert_eq!(rt; more.len(), len);
            planes_join(all.as_mut_slice(), more.as_slice());
            for (i, number) in all.iter().enumerate() {
                let first = if i == place { 32 } else { 0 };
                let second = if i == len - 1 { 64 } else { 0 };
                assert_eq!(rt; *number, first + second);
            }
        }
    }
    Ok(())
}
