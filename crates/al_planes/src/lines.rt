ghost use Rattle.std.specs.Prelude.{◌≡◌, ◌<◌, ◌*◌, ◌==◌, ℕ, true, IsTrue};
ghost use Rattle.al_planes.specs.Lines.{AreWindows, CommonBits, size, first_bits};

/// How many places make a line: 1, 2, 4, 8 or 16.
#[derive(Clone, Copy)]
pub enum Line {
    One,
    Two,
    Four,
    Eight,
    Sixteen,
}

/// From the bits that are set within s places to those within twice as many.
fn doubled(y: u64, s: u32) -> u64
    requires { s < 64 }
    ensures { (x : ℕ) → AreWindows x y s → AreWindows x result (s * 2) }
{
    y | (y >> s)
}

/// The bits from which on one of a line's number of places is set.
fn windows(x: u64, line: Line) -> u64
    ensures { AreWindows x result (size line) }
{
    match line {
        Line::One => x,
        Line::Two => doubled(x, 1),
        Line::Four => doubled(doubled(x, 1), 2),
        Line::Eight => doubled(doubled(doubled(x, 1), 2), 4),
        Line::Sixteen => doubled(doubled(doubled(doubled(x, 1), 2), 4), 8),
    }
}

/// The first bit of each line.
fn firsts(line: Line) -> u64
    ensures { result ≡ first_bits line }
{
    match line {
        Line::One => 0xffff_ffff_ffff_ffff,
        Line::Two => 0x5555_5555_5555_5555,
        Line::Four => 0x1111_1111_1111_1111,
        Line::Eight => 0x0101_0101_0101_0101,
        Line::Sixteen => 0x0001_0001_0001_0001,
    }
}

/// Whether some line has a bit in both.
pub(crate) fn numbers_meet(a: u64, b: u64, line: Line) -> bool
    ensures met { result ≡ true → CommonBits (size line) a b }
    ensures every { CommonBits (size line) a b → result ≡ true }
{
    windows(a, line) & windows(b, line) & firsts(line) != 0
}
