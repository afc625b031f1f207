//! Sessions that wait for an answer.

use crate::modes::{Called, Idle, Session, Then};
use transact::call::Answer;
use words::reply::Reply;

impl Called {
    ghost use Rattle.session.specs.Standings.{idle_of, wait_of, Resumes};

    /// Takes the answer to the call: the reply that the session says to it, and the session after. It
    /// takes no memory.
    pub fn resume(self, answer: Answer) -> (Reply, Session<Idle>)
        ensures { Resumes (wait_of self) answer result.0 (idle_of result.1) }
    {
        let Called { mut session, then } = self;
        match then {
            Then::Answers => {}
            Then::AnswersOrTakesBack(count) => {
                if let Answer::Fault(_) = &answer {
                    session.watching.take_back(count);
                }
            }
            Then::Says(line) => {
                drop(answer);
                return (Reply::line(line), session);
            }
        }
        (answer.into_reply(), session)
    }
}
