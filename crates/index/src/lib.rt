//! The bucket heads of a hash index: where the newest record of each bucket stands.
//!
//! A hash belongs to the bucket that is its remainder by the number of buckets. A head is an address in the log, or 0. The
//! index knows nothing of keys: older records of the bucket are found by the links of the records themselves.

#![tactic(auto)]

ghost use Rattle.std.specs.Prelude.{◌≡◌, ◌<◌, ◌%◌, length, replicate, slice_index, slice_set, IfOk};

use std::alloc::{AllocError, Global};
use std::marker::Model;

/// The buckets of a stripe's index where nothing else is asked for: `BUCKETS_DEFAULT` of `words::limits`. Any other number is as
/// right, only slower.
const BUCKETS_DEFAULT: u64 = 4_096;
/// The most buckets of a stripe's index: `BUCKETS_MAX` of `words::limits`.
const BUCKETS_MAX: u64 = 65_536;

/// A table of record addresses, one for each bucket. The bucket of a hash is the hash modulo the
/// number of buckets. An address of 0 says that the bucket has no record.
///
/// A clause sees an index as the list of its heads, by bucket.
#[derive(Drop)]
pub struct Index {
    heads: Vec<u64>,
}

impl Model for Index {
    ghost use Rattle.std.specs.Prelude.{ℕ, List, ◌<◌, length};

    ghost Value = { List ℕ };

    ghost view = { λ index. index.heads.items };

    ghost invariant = { λ index. 0 < length index.heads.items };
}

impl Index {
    /// An index of this many buckets, each with the head 0. It takes 8 bytes a bucket, and no other
    /// call takes memory.
    pub fn new(alloc: Global, buckets: usize) -> Result<Self, AllocError>
        requires { 0 < buckets }
        ensures { IfOk result (λ index. index ≡ replicate buckets 0) }
    {
        let heads = vec![in alloc; 0; buckets]?;
        Ok(Index { heads })
    }

    /// The address that the last [`Index::set_head`] of the hash's bucket put there, or 0 before any.
    pub fn head(&self, hash: u64) -> u64
        ensures head { result ≡ slice_index self.now (hash % length self.now) }
        ensures has_buckets { 0 < length self.now }
    {
        self.heads[self.bucket(hash)]
    }

    /// Puts the address at the head of the hash's bucket, and leaves all other buckets.
    pub fn set_head(&mut self, hash: u64, address: u64)
        ensures heads { self.new ≡ slice_set self.old (hash % length self.old) address }
        ensures buckets { length self.new ≡ length self.old }
    {
        let bucket = self.bucket(hash);
        self.heads[bucket] = address;
    }

    fn bucket(&self, hash: u64) -> usize
        ensures bucket { result ≡ hash % length self.now }
        ensures in_range { result < length self.now }
    {
        // The default and the most compile to a mask, other numbers to a division.
        let buckets = self.heads.len() as u64;
        let bucket = if buckets == BUCKETS_DEFAULT {
            hash % BUCKETS_DEFAULT
        } else if buckets == BUCKETS_MAX {
            hash % BUCKETS_MAX
        } else {
            hash % buckets
        };
        bucket as usize
    }
}

#[cfg(test)]
mod tests {
    use super::*;
    use std::test::Fail;

    #[test]
    fn heads_are_kept_by_bucket(rt: HostRuntime) -> Result<(), Fail> {
        let mut index = Index::new(rt.alloc(), 4)?;
        for hash in 0..9 {
            assert_eq!(rt; index.head(hash), 0);
        }
        index.set_head(6, 16);
        index.set_head(u64::MAX, 48);
        index.set_head(10, 88);
        assert_eq!(rt; index.head(0), 0);
        assert_eq!(rt; index.head(1), 0);
        assert_eq!(rt; index.head(2), 88);
        assert_eq!(rt; index.head(3), 48);
        assert_eq!(rt; index.head(6), 88);
        Ok(())
    }

    #[test]
    fn one_bucket_holds_every_hash(rt: HostRuntime) -> Result<(), Fail> {
        let mut index = Index::new(rt.alloc(), 1)?;
        index.set_head(7, 16);
        assert_eq!(rt; index.head(u64::MAX), 16);
        Ok(())
    }
}
