// Numbers as decimal digits.
ghost use Rattle.std.specs.Prelude.{◌≡◌, ◌+◌, ◌<◌, ◌≤◌, length, drop};
ghost use Rattle.joint.specs.Drill.{decimal};
ghost use Rattle.drill_text.specs.Decimal.{AllDigits, value};

// How many decimal digits a number has.
pub(crate) fn digit_count(n: usize) -> usize
    requires { n < 1000000 }
    ensures { (result ≡ length (decimal 5 n)) × (result ≤ 6) }
{
    match n {
        0..=9 => 1,
        10..=99 => 2,
        100..=999 => 3,
        1000..=9999 => 4,
        10000..=99999 => 5,
        _ => 6,
    }
}

// The digits of a number of 64 bits, as characters: the last of these, from `from` on (no heap).
#[derive(Drop)]
pub(crate) struct Digits {
    pub(crate) of: [u8; 20],
    pub(crate) from: usize,
}

impl Digits {
    // (As a `for` over the places it would need an end that no number reaches.)
    pub(crate) fn of(n: u64) -> Digits
        ensures { ((result.from ≤ 19) × (length result.of ≡ 20)) × (drop result.from result.of ≡ decimal 19 n) }
    {
        let mut of = [b'0'; 20];
        let mut rest = n;
        let mut from = 19;
        while 10 <= rest {
            of[from] = b'0' + (rest % 10) as u8;
            rest /= 10;
            from -= 1;
        }
        of[from] = b'0' + rest as u8;
        Digits { of, from }
    }
}

// The number of a line in five digits, as characters. It is counted, so that no line divides for it.
#[derive(Drop)]
pub(crate) struct Number {
    pub(crate) digits: [u8; 5],
    ghost in_range: { AllDigits digits },
}

impl Number {
    #[tactic(auto, unfolding(crate::specs::Decimal::value_from))]
    pub(crate) fn zero() -> Number
        ensures { value result.digits ≡ 0 }
    {
        Number { digits: [b'0'; 5] }
    }

    // One more.
    pub(crate) fn count(&mut self)
        requires { value self.old.digits < 99999 }
        ensures { value self.new.digits ≡ value self.old.digits + 1 }
    {
        self.digits = match self.digits {
            [a, b, c, d, e] if e < b'9' => [a, b, c, d, e + 1],
            [a, b, c, d, _] if d < b'9' => [a, b, c, d + 1, b'0'],
            [a, b, c, _, _] if c < b'9' => [a, b, c + 1, b'0', b'0'],
            [a, b, _, _, _] if b < b'9' => [a, b + 1, b'0', b'0', b'0'],
            [a, _, _, _, _] => [a + 1, b'0', b'0', b'0', b'0'],
        };
    }
}
