//! Messages that a script sends and that have no route.
ghost use Rattle.std.specs.Prelude.{◌≡◌, ◌<◌, IfSome, None, bytes_eq, length, position};
ghost use Rattle.std.specs.Option.{option_copied};
ghost use Rattle.nb_script.specs.Tree.{script};
ghost use Rattle.nb_check.specs.Checks.{declared_names};
ghost use Rattle.nb_check.specs.Sends.{sends};
ghost use Rattle.nb_settings.specs.Missing.{AreRouted, first_unrouted, has_route, missing_route_of};

use nb_base::{Names, Settings, Text};
use nb_check::Checked;

/// Whether a message has a route.
fn has_route(settings: &Settings, name: &Text) -> bool
    ensures { result ≡ has_route settings.now.routes name.now }
{
    settings
        .routes
        .as_slice()
        .binary_search_by(|route| route.name.cmp(name))
        .is_ok()
}

/// The first of the messages that has no route.
pub(crate) fn first_unrouted<'a>(settings: &Settings, sent: &'a Names) -> Option<&'a Text>
    ensures { option_copied result ≡ first_unrouted settings.now.routes sent.now }
{
    sent.as_slice()
        .iter()
        .find(|name| !has_route(settings, name))
}

/// The place of a name among the names.
fn place_of(name: &Text, names: &[Text]) -> Option<usize>
    ensures place { result ≡ position (λ other. bytes_eq other name.now) names.now }
    ensures within { IfSome result (λ i. i < length names.now) }
{
    names.iter().position(|other| other == name)
}

/// The number of a name among the names.
fn number_of(name: &Text, names: &Names) -> Option<u32>
    ensures { result ≡ position (λ other. bytes_eq other name.now) names.now }
{
    let _count = names.len();
    match place_of(name, names.as_slice()) {
        None => None,
        Some(place) => Some(place as u32),
    }
}

/// The number, among the declared messages, of the first message sent that has no route.
pub fn missing_route(settings: &Settings, checked: &Checked) -> Option<u32>
    ensures all_routed { result ≡ None
        → AreRouted settings.now.routes (sends (script checked.now)) }
    ensures number { result ≡ missing_route_of settings.now.routes (sends (script checked.now))
        (declared_names (script checked.now)) }
{
    match first_unrouted(settings, checked.sends()) {
        None => None,
        Some(name) => number_of(name, checked.names()),
    }
}
