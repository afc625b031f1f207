//! What a call is answered.

use words::reply::{Line, Reply};

/// What holds the answer to a call: a reply, or what one is made of.
pub trait Says {
    ghost use Rattle.words.specs.declared.reply.Reply.{Reply};

    /// The reply.
    ghost said: { Self → Reply };
}

impl Says for Reply {
    ghost said = { λ reply. reply };
}

impl Says for Line {
    ghost use Rattle.words.specs.Session.{line_reply};

    ghost said = { line_reply };
}
