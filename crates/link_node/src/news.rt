//! What is sent to whom, and that news is told: laws for what stands above. To call one is to know it.

ghost use Rattle.std.specs.Prelude.{◌≡◌, ◌≤◌, ◌<◌, [], ◌∷◌, length, ◌⊎◌, ℕ, ℤ, List, Some, Ok, IsTrue, slice_get, true, false};
ghost use Rattle.std.specs.List.{AllByRecursion};
ghost use Rattle.lk_base.specs.declared.endpoint.Endpoint.{Endpoint};
ghost use Rattle.lk_base.specs.declared.endpoint.Gate.{Gate};
ghost use Rattle.asdp_messages.specs.Datagram as message;
ghost use Rattle.asdp_messages.specs.Reading.{reading_of};
ghost use Rattle.asdp_messages.specs.declared.message.StateMsg.{StateMsg};
ghost use Rattle.peer_gateway.specs.Happenings.{Has};
ghost use Rattle.link_node.specs.Arrival.{is_heard};
ghost use Rattle.link_node.specs.Config.{ConfigValue, GateValue};
ghost use Rattle.link_node.specs.Event.{EventValue, SendingValue};
ghost use Rattle.link_node.specs.Event as event;
ghost use Rattle.link_node.specs.Machine.{Machine};
ghost use Rattle.link_node.specs.News.{IsResponse, HasAlive, IsDue, IsNoted, pong_of, bye_to};
ghost use Rattle.link_node.specs.Runs.{AreFitting, sent_of};
ghost use Rattle.link_node.specs.Settling.{held_in, same_held};
ghost use Rattle.link_node.specs.Step.{step_of, sends_of};

/// An alive that is heard is answered by a response, and by nothing else.
pub fn alives_are_answered()
    ensures { (m : Machine) (gate : Gate) (from : Endpoint) (bytes : List ℕ) (now : ℤ) (msg : StateMsg)
        → reading_of bytes ≡ Ok (message.Alive msg) → IsTrue (is_heard msg.from msg.group m)
        → IsResponse m gate from (sends_of m (event.Rx gate from bytes now)) }
{}

/// In a tick at which a broadcast is due each gate sends an alive to each of its destinations.
pub fn broadcasts_reach_all()
    ensures { (m : Machine) (now : ℤ) (gate : Gate) (setup : GateValue) (to : Endpoint)
        → IsDue m (step_of m (event.Tick now)).moment → slice_get m.config.gates gate.0 ≡ Some setup
        → Has setup.destinations to
        → HasAlive m now gate setup.local to (sends_of m (event.Tick now)) }
{}

/// What an event changes of that which alives tell is to be told, until it is.
pub fn news_is_noted()
    ensures new { (m : Machine) (e : EventValue) → same_held (held_in m) (held_in (step_of m e)) ≡ false
        → IsNoted (step_of m e) }
    ensures old { (m : Machine) (e : EventValue) → m.changed ≡ true → IsNoted (step_of m e) }
{}

/// A ping with a payload of at most 32 bytes is answered by a pong with the session, its ghost time at that moment and the
/// payload, and by nothing else; a longer one isn't.
pub fn pings_are_answered()
    ensures short { (m : Machine) (gate : Gate) (from : Endpoint) (bytes payload : List ℕ) (now : ℤ)
        → reading_of bytes ≡ Ok (message.Ping payload) → length payload ≤ 32
        → sends_of m (event.Rx gate from bytes now) ≡ pong_of m gate from payload now ∷ [] }
    ensures long { (m : Machine) (gate : Gate) (from : Endpoint) (bytes payload : List ℕ) (now : ℤ)
        → reading_of bytes ≡ Ok (message.Ping payload) → 32 < length payload
        → sends_of m (event.Rx gate from bytes now) ≡ [] }
{}

/// At the end each gate sends the node's bye to each of its destinations.
pub fn ends_say_goodbye()
    ensures { (m : Machine) (now : ℤ) (gate : Gate) (setup : GateValue) (to : Endpoint)
        → slice_get m.config.gates gate.0 ≡ Some setup → Has setup.destinations to
        → Has (sends_of m (event.End now)) (bye_to m gate to) }
{}

/// Each datagram of a run goes out on a gate of the node.
pub fn datagrams_go_out_on_gates()
    ensures { (config : ConfigValue) (now : ℤ) (es : List EventValue) → AreFitting (length config.gates) 0 0 es
        → AllByRecursion (λ (s : SendingValue). s.gate.0 < length config.gates) (sent_of config now es) }
{}
