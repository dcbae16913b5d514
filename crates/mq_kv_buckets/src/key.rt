// Which bucket a key belongs to.
ghost use Rattle.std.specs.Prelude.{◌≡◌, ◌≤◌, ◌<◌};
ghost use Rattle.mq_kv_buckets.specs.Keys.{bucket_of as bucket, hash_from};
ghost use Rattle.mq_kv_buckets.specs.Store.{is_key as is_good_key};

/// The most bytes of a key.
pub const KEY_LIMIT: usize = 255;

/// The most bytes of a value.
pub const VALUE_LIMIT: usize = 1024;

/// Whether a key has 1 to 255 bytes.
pub fn is_key(key: &[u8]) -> bool
    ensures { result ≡ is_good_key key.now }
{
    !key.is_empty() && key.len() <= KEY_LIMIT
}

// The sum of all bytes, each times 31 to the number of those behind it, modulo 2^32.
fn hash(key: &[u8]) -> u32
    ensures { result ≡ hash_from 0 key.now }
{
    let mut hash: u64 = 0;
    for byte in key {
        hash = (hash * 31 + u64::from(*byte)) % (1 << 32);
    }
    hash as u32
}

/// The bucket of a key, of so many buckets.
pub fn bucket_of(key: &[u8], buckets: u32) -> u32
    requires { 1 ≤ buckets }
    ensures is { result ≡ bucket buckets key.now }
    ensures low { result < buckets }
{
    hash(key) % buckets
}
