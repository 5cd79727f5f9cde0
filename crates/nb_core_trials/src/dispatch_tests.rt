ghost use Rattle.std.specs.Prelude.{◌≡◌, true, option_copied, IfOk, IsTrue};
ghost use Rattle.nb_base.specs.SettingsRules.{are_routes, are_subscribers};
ghost use Rattle.nb_dispatch.specs.Dispatches.{CanDispatch, route_of};

use nb_base::{
    Envelope, FromSaga, Intent, Intents, Items, Moment, Names, NoMemory, Ops, Policies, Route,
    Routes, SagaRef, Settings, Subscriber, Subscribers, Target, Text,
};
use nb_dispatch::ops_of;
use nb_headers::message_id;
use std::alloc::Global;
use std::test::Fail;

/// Charge goes to Billing.
fn routes(alloc: Global) -> Result<Routes, NoMemory>
    ensures { IfOk result (λ r. are_routes r ≡ true) }
{
    let name = Text::new(alloc, "Charge")?;
    let queue = Text::new(alloc, "Billing")?;
    let mut routes: Routes = Items::new(alloc);
    routes.push(Route { name, queue })?;
    Ok(routes)
}

/// Placed goes to Web.
fn subscribers(alloc: Global) -> Result<Subscribers, NoMemory>
    ensures { IfOk result (λ s. are_subscribers s ≡ true) }
{
    let name = Text::new(alloc, "Placed")?;
    let queue = Text::new(alloc, "Web")?;
    let mut queues: Names = Items::new(alloc);
    queues.push(queue)?;
    let mut subscribers: Subscribers = Items::new(alloc);
    subscribers.push(Subscriber { name, queues })?;
    Ok(subscribers)
}

/// Settings of the endpoint Sales.
fn settings(alloc: Global) -> Result<Settings, NoMemory> {
    let routes = routes(alloc)?;
    let subscribers = subscribers(alloc)?;
    let policies: Policies = Items::new(alloc);
    let endpoint = Text::new(alloc, "Sales")?;
    let error = Text::new(alloc, "error")?;
    Ok(Settings {
        endpoint,
        error,
        immediate: 5,
        delayed: 3,
        increase: 10,
        retention: 604800,
        routes,
        subscribers,
        policies,
    })
}

/// The queue of a message's route.
fn route_of<'a>(routes: &'a Routes, name: &str) -> Option<&'a Text>
    ensures { option_copied result ≡ route_of routes.now name.now }
{
    let route: Option<&Route> = routes.as_slice().iter().find(|r| name == r.name.as_str());
    match route {
        Some(route) => Some(&route.queue),
        None => None,
    }
}

/// Whether a message can be dispatched.
fn can_dispatch(settings: &Settings, intent: &Intent) -> bool
    ensures { IsTrue result → CanDispatch settings.now intent.now }
{
    match &intent.target {
        Target::Send => route_of(&settings.routes, intent.name.as_str()).is_some(),
        Target::Local | Target::Publish => true,
        Target::Reply { to } => !to.is_empty(),
        Target::Originator { to, original: _ } => !to.is_empty(),
        Target::Timeout => intent.from.is_some(),
    }
}

/// A new order.
fn new_order(alloc: Global) -> Result<FromSaga, NoMemory> {
    let saga = Text::new(alloc, "Order")?;
    Ok(FromSaga {
        saga,
        which: SagaRef::New(1),
    })
}

/// A message that an order sends.
fn intent(
    alloc: Global,
    target: Target,
    delay: Option<u64>,
    name: &str,
) -> Result<Intent, NoMemory> {
    let from = Some(new_order(alloc)?);
    let name = Text::new(alloc, name)?;
    let body = Text::new(alloc, "{}")?;
    Ok(Intent {
        target,
        delay,
        name,
        body,
        from,
    })
}

/// The incoming message.
fn message(alloc: Global) -> Result<Envelope, NoMemory> {
    let id = Text::new(alloc, "p1")?;
    if id.is_empty() {
        return Err(NoMemory);
    }
    let body = Text::new(alloc, "{}")?;
    Envelope::new(alloc, &id, body)
}

/// The ops of two messages, as commit 7.
fn batch(alloc: Global, first: Intent, second: Intent) -> Result<Ops, NoMemory> {
    let settings = settings(alloc)?;
    if !can_dispatch(&settings, &first) || !can_dispatch(&settings, &second) {
        return Err(NoMemory);
    }
    let message = message(alloc)?;
    let moment = Moment::new(1700000000).ok_or(NoMemory)?;
    let mut intents: Intents = Items::new(alloc);
    intents.push(first)?;
    intents.push(second)?;
    ops_of(alloc, &settings, &message, 7, moment, &intents)
}

/// A line for each op: its queue, its due, its id and the saga that sends it.
fn shown(alloc: Global, ops: &Ops) -> Result<String, NoMemory> {
    let mut out = String::new(alloc);
    for op in ops.as_slice() {
        let due = match op.due {
            Some(due) => due.seconds(),
            None => 0,
        };
        let saga = match op.envelope.header("NServiceBus.OriginatingSagaId") {
            Some(saga) => saga.as_str(),
            None => "",
        };
        let queue = op.queue.as_str();
        let id = message_id(&op.envelope).as_str();
        let line = format!(in alloc; "{queue} {due} {id} {saga}\n")?;
        out.push_str(line.as_str())?;
    }
    Ok(out)
}

#[test]
fn ops_are_numbered_over_the_batch(rt: HostRuntime) -> Result<(), Fail> {
    let alloc = rt.alloc();
    let charge = intent(alloc, Target::Send, None, "Charge")?;
    let expired = intent(alloc, Target::Timeout, Some(3600), "OrderExpired")?;
    let ops = batch(alloc, charge, expired)?;
    assert_eq!(rt;
        shown(alloc, &ops)?.as_str(),
        "Billing 0 Sales/7/1 Sales/7/1\nSales 1700003600 Sales/7/2 Sales/7/1\n"
    );
    Ok(())
}

#[test]
fn a_published_message_goes_to_its_subscribers(rt: HostRuntime) -> Result<(), Fail> {
    let alloc = rt.alloc();
    let nobody = intent(alloc, Target::Publish, None, "Cancelled")?;
    let placed = intent(alloc, Target::Publish, None, "Placed")?;
    let ops = batch(alloc, nobody, placed)?;
    assert_eq!(rt; shown(alloc, &ops)?.as_str(), "Web 0 Sales/7/1 Sales/7/1\n");
    Ok(())
}
