//! The hash of a list of words, and the bucket of a hash.

ghost use Rattle.std.specs.Prelude.{◌≡◌, ◌<◌, ◌≤◌, ◌^◌};
ghost use Rattle.fact_pool.specs.Hashes.{bucket_of, hash_of, mixed};

/// An odd number whose bits are in no order: the golden ratio, in 64 bits.
const MULTIPLIER: u64 = 0x9E37_79B9_7F4A_7C15;

/// How many hashes there are.
const HASHES: u64 = 1 << 32;

/// The hash of a list of words.
pub fn hash_of(words: &[u32]) -> u32
    ensures { result ≡ hash_of words.now }
{
    let mut hash = MULTIPLIER;
    for word in words {
        hash = mixed(hash, *word);
    }
    (hash / HASHES) as u32
}

/// What one more word makes of a hash. The upper half, which depends on every bit, becomes the lower one, and is multiplied anew.
fn mixed(hash: u64, word: u32) -> u64
    ensures { result ≡ mixed hash word }
{
    (hash.rotate_left(32) ^ u64::from(word)).wrapping_mul(MULTIPLIER)
}

/// The bucket of a hash, among so many. The upper bits of the hash decide.
pub fn bucket_of(hash: u32, count: usize) -> usize
    requires { count < 2 ^ 32 }
    ensures bucket { result ≡ bucket_of hash count }
    ensures within { 0 < count → result < count }
{
    (u64::from(hash) * count as u64 / HASHES) as usize
}
