//! The stripes of a store, all of them held.

ghost use Rattle.std.specs.Prelude.{◌≡◌, length, true};

use device::Device;
use gates::Parts;
use shards::shard::Shard;

/// The stripes of a store, all of them held, whatever a shard is.
#[derive(Drop)]
pub struct Stripes<T> {
    /// The shard of each stripe.
    pub shards: Vec<T>,
    /// The number of the pass that holds them.
    pub holder: u64,
}

impl<T> Stripes<T> {
    ghost use Rattle.plans_tests.specs.Held.{IsFew};

    /// Whether there is one stripe at least, and 64 at most.
    pub fn are_few(&self) -> bool
        ensures { result ≡ true → IsFew self.now }
    {
        let count = self.shards.len();
        1 <= count && count <= 64
    }
}

/// A store: its stripes and its device.
#[derive(Drop)]
pub struct Store<D: Device> {
    /// The stripes.
    pub stripes: Stripes<Shard<D::Receipt>>,
    /// An opening of the device.
    pub device: D,
}

impl<T> Parts<T> for Stripes<T> {
    ghost use Rattle.std.specs.Prelude.{refl};
    ghost use Rattle.std.proofs.Common.{◌∙◌};
    ghost use Rattle.plans_tests.specs.Held.{IsFew, SameHold, count_of, holder_in, part_at, with_part};

    ghost stripes_of = { count_of };

    ghost holder_of = { holder_in };

    ghost part_of = { part_at };

    ghost with_part = { with_part };

    ghost is_open = { IsFew };

    ghost keeps = { SameHold };

    fn stripes(&self) -> usize {
        self.shards.len()
    }

    fn holder(&self) -> u64 {
        self.holder
    }

    ghost are_few = { λ stripes few. few };

    ghost same_stripes = { λ before later same. same.0 };

    ghost same_holder = { λ before later same. same.1 };

    ghost keeps_same = { λ stripes. (refl, refl) };

    ghost keeps_both = { λ one two three first second. (second.0 ∙ first.0, second.1 ∙ first.1) };

    fn part(&mut self, stripe: usize) -> &mut T {
        &mut self.shards[stripe]
    }

    fn only(&self) -> Option<usize> {
        None
    }
}
