//! Masks of 512 places, and their lines.
use al_planes::{Line, has_bit, masks_join, masks_meet, masks_meet_by_lines, set_bit};

#[test]
fn places_and_lines(rt: HostRuntime) {
    let sizes = [
        (Line::One, 1),
        (Line::Two, 2),
        (Line::Four, 4),
        (Line::Eight, 8),
        (Line::Sixteen, 16),
    ];
    let mut a = [0u64; 8];
    set_bit(&mut a, 64);
    for i in 0..512 {
        let mut b = [0u64; 8];
        set_bit(&mut b, i);
        assert!(rt; has_bit(&b, i));
        assert_eq!(rt; has_bit(&a, i), i == 64);
        assert_eq!(rt; masks_meet(&a, &b), i == 64);
        for (line, words) in sizes {
            assert_eq!(rt;
                masks_meet_by_lines(&a, &b, line),
                i >= 64 && i < 64 + words
            );
        }
        masks_join(&mut b, &a);
        assert!(rt; has_bit(&b, 64) && has_bit(&b, i));
    }
}
