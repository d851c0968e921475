// The exact amount of a float in hundredths or thousandths.
ghost use Rattle.std.specs.Prelude.{◌≡◌, ◌*◌, ◌≤◌, ◌<◌};
ghost use Rattle.page.specs.Amounts.{units_of, printable};
ghost use Rattle.page.specs.Steps.{Narrow};

// The parts of 1 / scale nearest to x, halves upward. A float's exact amount is its digits d over
// 2^(h + 1), so a half is 2^h and all of it is done on whole numbers.
pub fn units(x: f64, scale: u64) -> u64
    requires { Narrow x × (scale ≤ 1000) }
    ensures { result ≡ units_of scale x }
{
    let b = x.to_bits();
    let e = b % 0x8000_0000_0000_0000 / 0x10_0000_0000_0000;
    // Less than half a part, subnormal numbers too: 1000 times 53 digits are less than 2^63.
    if e < 1012 {
        return 0;
    }
    let d = 0x10_0000_0000_0000 + b % 0x10_0000_0000_0000;
    let h = 1074 - e;
    (d * scale + (1 << h)) >> (h + 1)
}

// Whether x can stand on the page: a number from 0 on, of at most `most` parts of 1 / scale.
pub fn printable(x: f64, scale: u64, most: u64) -> bool
    requires { (scale ≤ 1000) × (most < 100000 * scale) }
    ensures { result ≡ printable scale most x }
{
    if x < 0.0 {
        return false;
    }
    // False for a NaN and +∞ too. What is left has an amount that fits 64 bits.
    if x < 100000.0 {
        return units(x, scale) <= most;
    }
    false
}
