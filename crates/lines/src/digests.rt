// The digest of a run of numbers: FNV-1a on 64-bit words.
ghost use Rattle.std.specs.Prelude.{◌≡◌};
ghost use Rattle.lines.specs.Digests.{begun, mixed, mixed_all};

const PRIME: u64 = 1099511628211;

// The digest of no numbers.
pub fn digest_start() -> u64
    ensures { result ≡ begun }
{
    14695981039346656037
}

// The digest h with the number x after it.
pub fn digest_step(h: u64, x: u64) -> u64
    ensures { result ≡ mixed h x }
{
    numbers::wrapping_mul(h ^ x, PRIME)
}

// The digest h with all of the words after it.
pub fn digest_all(h: u64, words: &[u64]) -> u64
    ensures { result ≡ mixed_all h words.now }
{
    words.iter().fold(h, |d, x| digest_step(d, *x))
}
