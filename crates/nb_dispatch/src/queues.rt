//! The queues to which messages go.
ghost use Rattle.std.specs.Prelude.{◌≡◌, option_copied};
ghost use Rattle.nb_dispatch.specs.Dispatches.{route_of, subscribed};

use nb_base::{Route, Routes, Subscriber, Subscribers, Text};

/// The queue of a message's route.
pub fn route_of<'a>(routes: &'a Routes, name: &str) -> Option<&'a Text>
    ensures { option_copied result ≡ route_of routes.now name.now }
{
    let route: Option<&Route> = routes.as_slice().iter().find(|r| name == r.name.as_str());
    match route {
        Some(route) => Some(&route.queue),
        None => None,
    }
}

/// The queues of a message's subscribers.
pub fn subscribed<'a>(subscribers: &'a Subscribers, name: &str) -> &'a [Text]
    ensures { result.now ≡ subscribed subscribers.now name.now }
{
    let subscriber: Option<&Subscriber> = subscribers
        .as_slice()
        .iter()
        .find(|s| name == s.name.as_str());
    match subscriber {
        Some(subscriber) => subscriber.queues.as_slice(),
        None => &[],
    }
}
