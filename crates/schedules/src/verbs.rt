//! The names of events, by what they name beside.

ghost use Rattle.std.specs.Prelude.{◌≡◌};
ghost use Rattle.schedules.specs.Lines.{client_verb_named, event_of_client, stripe_verb_named, event_of_stripe, hold_verb_named, event_of_hold};

use world_model::Event;

/// An event of a client.
#[derive(Clone, Copy)]
pub(crate) enum ClientVerb {
    Close,
    Fetch,
    Commit,
}

/// An event of a stripe.
#[derive(Clone, Copy)]
pub(crate) enum StripeVerb {
    Copy,
    Write,
    Install,
    Drop,
    Unlink,
    Retire,
    Drain,
}

/// An event of a client and a stripe.
#[derive(Clone, Copy)]
pub(crate) enum HoldVerb {
    Take,
    Give,
}

impl ClientVerb {
    pub(crate) fn named(name: &[u8]) -> Option<ClientVerb>
        ensures { result ≡ client_verb_named name.now }
    {
        if name == b"close".as_slice() {
            Some(ClientVerb::Close)
        } else if name == b"fetch".as_slice() {
            Some(ClientVerb::Fetch)
        } else if name == b"commit".as_slice() {
            Some(ClientVerb::Commit)
        } else {
            None
        }
    }

    pub(crate) fn of(self, client: usize) -> Event
        ensures { result ≡ event_of_client self client }
    {
        match self {
            ClientVerb::Close => Event::Close(client),
            ClientVerb::Fetch => Event::Fetch(client),
            ClientVerb::Commit => Event::Commit(client),
        }
    }
}

impl StripeVerb {
    pub(crate) fn named(name: &[u8]) -> Option<StripeVerb>
        ensures { result ≡ stripe_verb_named name.now }
    {
        if name == b"copy".as_slice() {
            Some(StripeVerb::Copy)
        } else if name == b"write".as_slice() {
            Some(StripeVerb::Write)
        } else if name == b"install".as_slice() {
            Some(StripeVerb::Install)
        } else if name == b"drop".as_slice() {
            Some(StripeVerb::Drop)
        } else if name == b"unlink".as_slice() {
            Some(StripeVerb::Unlink)
        } else if name == b"retire".as_slice() {
            Some(StripeVerb::Retire)
        } else if name == b"drain".as_slice() {
            Some(StripeVerb::Drain)
        } else {
            None
        }
    }

    pub(crate) fn of(self, stripe: usize) -> Event
        ensures { result ≡ event_of_stripe self stripe }
    {
        match self {
            StripeVerb::Copy => Event::Copy(stripe),
            StripeVerb::Write => Event::Write(stripe),
            StripeVerb::Install => Event::Install(stripe),
            StripeVerb::Drop => Event::Drop(stripe),
            StripeVerb::Unlink => Event::Unlink(stripe),
            StripeVerb::Retire => Event::Retire(stripe),
            StripeVerb::Drain => Event::Drain(stripe),
        }
    }
}

impl HoldVerb {
    pub(crate) fn named(name: &[u8]) -> Option<HoldVerb>
        ensures { result ≡ hold_verb_named name.now }
    {
        if name == b"take".as_slice() {
            Some(HoldVerb::Take)
        } else if name == b"give".as_slice() {
            Some(HoldVerb::Give)
        } else {
            None
        }
    }

    pub(crate) fn of(self, client: usize, stripe: usize) -> Event
        ensures { result ≡ event_of_hold self client stripe }
    {
        match self {
            HoldVerb::Take => Event::Take(client, stripe),
            HoldVerb::Give => Event::Give(client, stripe),
        }
    }
}
