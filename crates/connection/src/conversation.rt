//! Laws of conversations: the steps by which whoever drives a [`Client`](crate::Client) keeps one, from
//! what the client says and what its calls are answered. Each is the contract of a function that does
//! nothing; a proof that wants the law calls it.

ghost use Rattle.std.specs.Prelude.{◌≡◌, ◌++◌, [], ◌∷◌, ℕ, List, Some, None};
ghost use Rattle.words.specs.declared.reply.Reply.{Reply};
ghost use Rattle.words.specs.declared.reply.Fault.{Fault};
ghost use Rattle.words.specs.declared.reply.Fault.TheVariants as fault;
ghost use Rattle.words.specs.declared.reply.Line.TheVariants as line;
ghost use Rattle.words.specs.Store.{Bytes};
ghost use Rattle.words.specs.Encoding.{encoding, encodings};
ghost use Rattle.words.specs.History.{Pair, Placed, keys_of_pairs};
ghost use Rattle.words.specs.Watches.{watched_after};
ghost use Rattle.words.specs.Session.{Asked, Idle, Transcript, operation_of, watched_at_fault, line_reply};
ghost use Rattle.transact.specs.declared.call.Call.{Call};
ghost use Rattle.transact.specs.declared.call.Answer.{Answer};
ghost use Rattle.transact.specs.declared.call.Answer.TheVariants as answer;
ghost use Rattle.transact.specs.Calls.{asked_of};
ghost use Rattle.connection.specs.declared.client.Next.TheVariants as next;
ghost use Rattle.connection.specs.Clients.{Progress, beginning, watched_of, mode_of, Gives, Resumes};
ghost use Rattle.connection.specs.Conversations.{Conversation, Answers, Leads};

use session::watches_follow_entries;

/// A client that was fed nothing begins a conversation.
pub fn begins()
    ensures { (session : ℕ) → Conversation session [] [] [] beginning [] }
{}

/// A conversation goes on as it was where the client is fed a piece.
pub fn is_fed()
    ensures { (session : ℕ) (own : List Placed) (pairs : List Pair) (fed said piece : Bytes) (old : Progress)
        → Conversation session own pairs fed old said
        → Conversation session own pairs (fed ++ piece) (record old { unread = old.unread ++ piece }) said }
{}

/// A reply that a client says at once answers its request, which makes no entry.
pub fn says()
    ensures { (session : ℕ) (pairs : List Pair) (old new : Progress) (reply : Reply)
        → watched_of old.stage ≡ keys_of_pairs pairs → Gives old (next.Says reply) new
        → Answers session [] pairs pairs old new reply }
{}

/// The out-of-memory line answers the request of a client that says it.
pub fn says_out_of_memory()
    ensures { (session : ℕ) (pairs : List Pair) (old new : Progress)
        → watched_of old.stage ≡ keys_of_pairs pairs → Gives old next.SaysOutOfMemory new
        → Answers session [] pairs pairs old new (line_reply (line.Faulty fault.OutOfMemory)) }
{}

/// A call that was done answers its request, which makes one entry, wherever in the history.
pub fn is_done()
    ensures { (session : ℕ) (pairs : List Pair) (old called new : Progress) (call : Call) (asked : Asked) (given reply : Reply) (position : ℕ)
        → watched_of old.stage ≡ keys_of_pairs pairs → Gives old (next.Calls call) called → asked_of call ≡ Some asked
        → new.unread ≡ called.unread → Resumes called.stage (answer.Reply given) reply new.stage
        → Answers session ((position, record { session = session; operation = operation_of pairs asked; reply = given }) ∷ [])
        pairs (watched_after pairs (operation_of pairs asked) position) old new reply }
{
    watches_follow_entries();
}

/// A call that was not done answers its request by the line of a fault, which makes no entry.
pub fn is_undone()
    ensures { (session : ℕ) (pairs : List Pair) (old called new : Progress) (call : Call) (asked : Asked) (fault : Fault) (reply : Reply)
        → watched_of old.stage ≡ keys_of_pairs pairs → Gives old (next.Calls call) called → asked_of call ≡ Some asked
        → new.unread ≡ called.unread → Resumes called.stage (answer.Fault fault) reply new.stage
        → Answers session [] pairs (watched_at_fault pairs asked) old new reply }
{
    watches_follow_entries();
}

/// A call that ended the watches answers its request, which makes no entry, and nothing is watched.
pub fn is_forgotten()
    ensures { (session : ℕ) (pairs : List Pair) (old called new : Progress) (call : Call) (given : Answer) (reply : Reply)
        → watched_of old.stage ≡ keys_of_pairs pairs → Gives old (next.Calls call) called → asked_of call ≡ None
        → new.unread ≡ called.unread → Resumes called.stage given reply new.stage
        → Answers session [] pairs [] old new reply }
{}

/// A conversation goes on by one answered request, whose reply is said last.
pub fn goes_on()
    ensures { (session : ℕ) (own entries : List Placed) (pairs after : List Pair) (fed said : Bytes) (old new : Progress) (reply : Reply)
        → Conversation session own pairs fed old said → Answers session entries pairs after old new reply
        → Conversation session (own ++ entries) after fed new (said ++ encoding reply) }
{}

/// The requests that were answered, the entries and the replies of a conversation are a transcript, which
/// leads the session to its mode.
pub fn concludes()
    ensures transcript { (session : ℕ) (own : List Placed) (pairs : List Pair) (fed said : Bytes) (at : Progress)
        → (talk : Conversation session own pairs fed at said) → Transcript session Idle [] talk.requests own talk.replies }
    ensures leads { (session : ℕ) (own : List Placed) (pairs : List Pair) (fed said : Bytes) (at : Progress)
        → (talk : Conversation session own pairs fed at said) → Leads session Idle [] talk.requests own talk.replies (mode_of at.stage) pairs }
{}
