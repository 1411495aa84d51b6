// A number's decimal digits.
ghost use Rattle.std.specs.Prelude.{◌≡◌, ◌≤◌, drop};
ghost use Rattle.lines.specs.Text.{decimal_of};

// Digits of the largest number of 64 bits.
pub(crate) const DIGITS: usize = 20;

// The digits of a number at the end of the lent bytes; answers where they begin.
pub(crate) fn spell(n: u64, digits: &mut [u8; DIGITS]) -> usize
    ensures { (result ≤ 20) × (drop result digits.new ≡ decimal_of n) }
{
    let mut i = DIGITS;
    let mut rest = n;
    // it ends with the number's digits, and counts no range
    while 9 < rest {
        i -= 1;
        digits[i] = 48 + (rest % 10) as u8;
        rest /= 10;
    }
    i -= 1;
    digits[i] = 48 + rest as u8;
    i
}
