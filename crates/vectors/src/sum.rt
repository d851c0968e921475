// Checksums, by which a long area is compared in a few digits.
ghost use Rattle.std.specs.Prelude.{◌≡◌, ◌<◌, ℕ, map};
ghost use Rattle.vectors.specs.Sums.{prime, added, sum_of};

// What a checksum is taken of.
pub trait Number {
    ghost number: { Self → ℕ };

    fn number(&self) -> u64
        ensures { result ≡ number self.now };
}

impl Number for u8 {
    ghost number = { λ n. n };

    fn number(&self) -> u64 {
        u64::from(*self)
    }
}

impl Number for u64 {
    ghost number = { λ n. n };

    fn number(&self) -> u64 {
        *self
    }
}

// The checksum of items. It begins as 0, and each number makes the next of it.
pub fn of<T: Number>(items: &[T]) -> u64
    ensures { result ≡ sum_of (map T.number items.now) }
{
    let mut sum: u64 = 0;
    for item in items {
        sum = add(sum, item.number());
    }
    sum
}

// The checksum s with one number more.
#[tactic(auto, unfolding(crate::specs::Sums::added))]
fn add(s: u64, n: u64) -> u64
    requires { s < prime }
    ensures next { result ≡ added s n }
    ensures bound { result < prime }
{
    (s * 65599 + n % 4294967291 + 1) % 4294967291
}
