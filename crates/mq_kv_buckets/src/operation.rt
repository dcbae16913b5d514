// Operations on a store, and what they answer.
ghost use Rattle.std.specs.Prelude.{◌≡◌};
ghost use Rattle.mq_kv_buckets.specs.Store.{key_of};

use std::marker::Model;

/// The bytes of a key, which need not have a good length.
#[derive(Drop)]
pub struct Key(pub Vec<u8>);

impl Model for Key {
    ghost use Rattle.std.specs.Prelude.{ℕ, List};

    ghost Value = { List ℕ };

    ghost view = { λ k. k.0.items };
}

/// The bytes of a value.
#[derive(Drop)]
pub struct Value(pub Vec<u8>);

impl Model for Value {
    ghost use Rattle.std.specs.Prelude.{ℕ, List};

    ghost Value = { List ℕ };

    ghost view = { λ v. v.0.items };
}

/// An operation on the store.
#[derive(Drop)]
pub enum KvOp {
    /// Sets the value of a key, in place of an earlier one.
    Put(Key, Value),
    /// Removes a key with its value.
    Delete(Key),
    /// Reads the value of a key.
    Get(Key),
}

impl KvOp {
    /// The key that it is about.
    pub fn key(&self) -> &[u8]
        ensures { result.now ≡ key_of self.now }
    {
        match self {
            KvOp::Put(key, _) => &key.0,
            KvOp::Delete(key) => &key.0,
            KvOp::Get(key) => &key.0,
        }
    }
}

/// The answer to one operation.
#[derive(Drop)]
pub enum KvReply {
    /// The store was changed as was asked.
    Done,
    /// The value that was read.
    Value(Value),
    /// The key that was to be read or removed is not in the store.
    Missing,
    Refused(KvFault),
}

/// Why an operation was refused. It then changed nothing.
#[derive(Clone, Copy, PartialEq, Eq)]
pub enum KvFault {
    /// The key has no bytes, or more than 255.
    KeySize,
    /// The value has more than 1,024 bytes.
    ValueSize,
    /// The bucket of the key would pass 4,096 bytes.
    BucketFull,
}
