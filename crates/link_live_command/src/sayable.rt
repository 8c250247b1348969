//! That events can be said in a replay script: for proofs alone, nothing is computed.

ghost use Rattle.std.specs.Prelude.{◌≡◌, ℕ, map};
ghost use Rattle.lk_base.specs.Endpoint.{IsEndpoint};
ghost use Rattle.link_node.specs.Event.{FitsKind, event_value};
ghost use Rattle.link_node.specs.Runs.{AreFitting};
ghost use Rattle.link_script.specs.ReplayScript.{AreSayable, IsEventKind};

use link_node::Event;
use lk_base::Endpoint;

/// Events that a node could take can be said: beside that, a datagram's source has to be an endpoint, which its type says.
pub fn are_sayable(events: &[Event])
    ensures { (gates app audio : ℕ) → AreFitting gates app audio (map event_value events.now)
        → AreSayable gates audio (map event_value events.now) }
{
    for event in events {
        is_sayable(event);
    }
}

// The same of one event.
fn is_sayable(event: &Event)
    ensures { (gates app audio : ℕ) → FitsKind gates app audio (event_value event.now)
        → IsEventKind gates audio (event_value event.now) }
{
    if let Event::Rx { from, .. } = event {
        is_endpoint(*from);
    }
}

// An address has four bytes and a port two.
fn is_endpoint(endpoint: Endpoint)
    ensures { IsEndpoint endpoint }
{}
