//! Handles of the words.

ghost use Rattle.std.specs.Prelude.{◌≡◌, IfOk};
ghost use Rattle.std.specs.Arc.{arc_value};
ghost use Rattle.std.specs.Box.{box_value};

use crate::words::EpochWords;
use core::mem::replace_with;
use std::alloc::{AllocError, Global};
use std::sync::Arc;

/// A handle of the words, which stay as long as there is one.
#[derive(Drop)]
pub(crate) enum Handle {
    Counted(Arc<EpochWords>),
    /// The words stay for good.
    Kept(&'static EpochWords),
}

/// Makes handles of the words, and never ends. Std refuses a handle where 2^63 of them live already: from
/// then on the words are kept for good, and handles are no longer counted.
#[derive(Drop)]
pub(crate) enum Handles {
    /// A handle in a box, which keeps the words once it is leaked.
    Counted(Box<Arc<EpochWords>>),
    Kept(&'static EpochWords),
}

impl Handle {
    ghost use Rattle.epoch.specs.Words.{words_by};

    /// The words.
    pub(crate) fn words(&self) -> &EpochWords
        ensures { result.now ≡ words_by self.now }
    {
        match self {
            Handle::Counted(words) => words,
            Handle::Kept(words) => words,
        }
    }
}

/// Keeps the words of a handle for good.
fn keep(own: Box<Arc<EpochWords>>) -> &'static EpochWords
    ensures { result.now ≡ arc_value (box_value own) }
{
    let own: &'static Arc<EpochWords> = Box::leak(own);
    own
}

impl Handles {
    ghost use Rattle.epoch.specs.Words.{words_by, words_from};

    /// Makes handles of these words. `Err` only out of memory.
    pub(crate) fn of(alloc: Global, words: &Arc<EpochWords>) -> Result<Handles, AllocError>
        ensures { IfOk result (λ handles. words_from handles ≡ arc_value words.now) }
    {
        let own = Arc::try_clone(words)?;
        match Box::new(alloc, own) {
            Ok(own) => Ok(Handles::Counted(own)),
            Err(_) => Err(AllocError),
        }
    }

    /// A handle of words that stay for good, and what makes the next ones.
    fn kept(words: &'static EpochWords) -> (Handles, Handle)
        ensures handles { words_from result.0 ≡ words.now }
        ensures handle { words_by result.1 ≡ words.now }
    {
        (Handles::Kept(words), Handle::Kept(words))
    }

    /// A handle, and what makes the next ones.
    fn split(self, _: ()) -> (Handles, Handle)
        ensures handles { words_from result.0 ≡ words_from self }
        ensures handle { words_by result.1 ≡ words_from self }
    {
        match self {
            Handles::Counted(own) => match Arc::try_clone(&own) {
                Ok(words) => (Handles::Counted(own), Handle::Counted(words)),
                Err(AllocError) => Handles::kept(keep(own)),
            },
            Handles::Kept(words) => Handles::kept(words),
        }
    }

    /// A handle. It takes no memory, and is never refused.
    pub(crate) fn next(&mut self) -> Handle
        ensures handles { words_from self.new ≡ words_from self.old }
        ensures handle { words_by result ≡ words_from self.old }
    {
        replace_with(self, (), Handles::split)
    }
}
