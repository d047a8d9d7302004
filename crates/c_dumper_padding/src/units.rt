// The next pad of a gap, in both modes: its unit and its width.
ghost use Rattle.std.specs.Prelude.{◌≡◌};
ghost use Rattle.spec_c_dumper.specs.rules.Layout.{chip_away_bits, pad_of, placed_pad};
ghost use Rattle.c_dumper_padding.specs.units.Units.{pad_is, pad_by, suits_by};

#[derive(Clone, Copy, PartialEq, Eq)]
pub enum Unit {
    Long,
    Int,
    Short,
    Char,
}

// A pad: its unit and its width in bits.
#[derive(Clone, Copy, PartialEq, Eq)]
pub struct Pad {
    pub unit: Unit,
    pub width: u64,
}

// (Of at_most 0 the rest is the total.)
fn chip_away_bits(total: u64, at_most: u64) -> u64
    ensures { result ≡ chip_away_bits total at_most }
{
    if at_most == 0 {
        return total;
    }
    let rest = total % at_most;
    if rest == 0 { at_most } else { rest }
}

// The next pad of a gap that is not filled by a long: the pad of pointers that have no size.
fn short_pad(gap: u64) -> Pad
    ensures { pad_is result ≡ pad_of 0 gap }
{
    if 16 < gap {
        return Pad {
            unit: Unit::Int,
            width: chip_away_bits(gap, 32),
        };
    }
    if 8 < gap {
        return Pad {
            unit: Unit::Short,
            width: chip_away_bits(gap, 16),
        };
    }
    Pad {
        unit: Unit::Char,
        width: chip_away_bits(gap, 8),
    }
}

// The next pad of a gap: the widest unit that the gap passes; the odd part of the gap comes first.
pub fn pad_of(ptr_sz: u32, gap: u64) -> Pad
    ensures { pad_is result ≡ pad_of ptr_sz gap }
{
    if gap <= 32 {
        return short_pad(gap);
    }
    if ptr_sz <= 4 {
        return short_pad(gap);
    }
    Pad {
        unit: Unit::Long,
        width: chip_away_bits(gap, (ptr_sz as u64) * 8),
    }
}

// Whether a pad of 2^log = width bits starts on a multiple of its width, by the zeros at the end of its start, and fits.
fn suits(start: u64, gap: u64, log: u32, width: u64) -> bool
    ensures { result ≡ suits_by start gap log width }
{
    let is_unaligned = u64::trailing_zeros(start) < log;
    if is_unaligned {
        return false;
    }
    width <= gap
}

// The pads of placing mode, the widest first, each with the logarithm of its width. The first is for pointers of 8 bytes.
const PLACED: [(u32, Unit, u64); 6] = [
    (6, Unit::Long, 64),
    (5, Unit::Int, 32),
    (4, Unit::Short, 16),
    (3, Unit::Char, 8),
    (2, Unit::Char, 4),
    (1, Unit::Char, 2),
];

// The next pad of placing mode: the widest unit whose start is a multiple of its width and that still fits the gap.
pub fn placed_pad(ptr_sz: u32, start: u64, gap: u64) -> Pad
    ensures { pad_is result ≡ placed_pad ptr_sz start gap }
{
    let from = if ptr_sz == 8 { 0 } else { 1 };
    let first = PLACED[from..]
        .iter()
        .find(|(log, _, width)| suits(start, gap, *log, *width));
    match first {
        Some((_, unit, width)) => Pad {
            unit: *unit,
            width: *width,
        },
        None => Pad {
            unit: Unit::Char,
            width: 1,
        },
    }
}

// The next pad of a gap from a bit on, in either mode.
pub fn next_pad(placing: bool, ptr_sz: u32, start: u64, gap: u64) -> Pad
    ensures { pad_is result ≡ pad_by placing ptr_sz start gap }
{
    if placing {
        return placed_pad(ptr_sz, start, gap);
    }
    pad_of(ptr_sz, gap)
}
