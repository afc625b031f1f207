//! Ends of what an engine gives. What each is made of is dropped here, and not once more in each crate of tests that owns one.
//! An engine has [`Engine::end`](engine::Engine::end).

ghost use Rattle.std.specs.Prelude.{◌≡◌};

use device::Device;
use engine::Pass;
use transact::call::Answer;
use words::reply::Reply;
use words::word::Word;

/// Lets a pass go.
pub fn end_pass<D: Device>(pass: Pass<D>) {
    drop(pass);
}

/// A pass that a thread is to have. A closure may take only what it can drop, and this one is dropped here.
pub struct Kept<D: Device> {
    pub pass: Pass<D>,
}

impl<D: Device> Drop for Kept<D> {
    fn drop(self) {
        end_pass(self.into_pass());
    }
}

impl<D: Device> Kept<D> {
    /// The pass.
    pub fn into_pass(self) -> Pass<D>
        ensures { result ≡ self.pass }
    {
        let Kept { pass } = self;
        pass
    }
}

/// Lets passes go.
pub fn end_passes<D: Device>(passes: Vec<Pass<D>>) {
    drop(passes);
}

/// Lets an answer go.
pub fn end_answer(answer: Answer) {
    drop(answer);
}

/// Lets a reply go.
pub fn end_reply(reply: Reply) {
    drop(reply);
}

/// Lets a word go.
pub fn end_word(word: Word) {
    drop(word);
}
