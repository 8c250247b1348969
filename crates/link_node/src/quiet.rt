//! Events that change little, and which of them end a peer's row: laws for what stands above. To call one is to know it.

ghost use Rattle.std.specs.Prelude.{◌≡◌, ◌<ℤ◌, ℕ, ℤ, List, [], Ok, IsTrue};
ghost use Rattle.std.specs.Int.{int_max};
ghost use Rattle.lk_base.specs.declared.endpoint.Endpoint.{Endpoint};
ghost use Rattle.lk_base.specs.declared.endpoint.Gate.{Gate};
ghost use Rattle.lk_base.specs.declared.ids.NodeId.{NodeId};
ghost use Rattle.asdp_messages.specs.Datagram as message;
ghost use Rattle.asdp_messages.specs.Reading.{reading_of};
ghost use Rattle.peer_gateway.specs.Happenings.{Has, rows_of};
ghost use Rattle.peer_gateway.specs.declared.row.PeerRow.{PeerRow};
ghost use Rattle.link_node.specs.Arrival.{is_heard};
ghost use Rattle.link_node.specs.Due.{due_of};
ghost use Rattle.link_node.specs.Event.{EventValue};
ghost use Rattle.link_node.specs.Event as event;
ghost use Rattle.link_node.specs.Machine.{Machine};
ghost use Rattle.link_node.specs.Quiet.{IsPassedOver, EndsRow};
ghost use Rattle.link_node.specs.Step.{at_moment, step_of, sends_of, change_of};
ghost use Rattle.link_node.specs.WellFormed.{IsMachine};
ghost use Rattle.link_node.specs.declared.event.Change.TheVariants.{Same};

/// A tick before the moment at which a tick has work sends nothing and publishes nothing. It may forget sessions that
/// nobody is in, for which no moment is due.
pub fn ticks_before_due_are_silent()
    ensures sends { (m : Machine) (now : ℤ) → IsMachine m → int_max m.moment now <ℤ due_of m
        → sends_of m (event.Tick now) ≡ [] }
    ensures change { (m : Machine) (now : ℤ) → IsMachine m → int_max m.moment now <ℤ due_of m
        → change_of m (event.Tick now) ≡ Same }
{}

/// A datagram that is no message, that isn't heard or that nobody waits for changes nothing but the moment, and nothing is
/// sent for it; and a ping, which is answered where it is short, changes nothing else either.
pub fn what_is_passed_over_changes_nothing()
    ensures change { (m : Machine) (gate : Gate) (from : Endpoint) (bytes : List ℕ) (now : ℤ) → IsMachine m
        → IsPassedOver m (reading_of bytes) → step_of m (event.Rx gate from bytes now) ≡ at_moment now m }
    ensures sends { (m : Machine) (gate : Gate) (from : Endpoint) (bytes : List ℕ) (now : ℤ)
        → IsPassedOver m (reading_of bytes) → sends_of m (event.Rx gate from bytes now) ≡ [] }
    ensures ping { (m : Machine) (gate : Gate) (from : Endpoint) (bytes payload : List ℕ) (now : ℤ) → IsMachine m
        → reading_of bytes ≡ Ok (message.Ping payload) → step_of m (event.Rx gate from bytes now) ≡ at_moment now m }
{}

/// A bye that is heard ends its peer's row on that gate, and a tick ends each row whose limit isn't after it. Other rows
/// stay, where no session is founded.
pub fn byes_and_limits_end_rows()
    ensures bye { (m : Machine) (gate : Gate) (from : Endpoint) (bytes : List ℕ) (now : ℤ) (id : NodeId) (ttl group : ℕ) (row : PeerRow)
        → reading_of bytes ≡ Ok (message.Bye id ttl group) → IsTrue (is_heard id group m)
        → Has (rows_of (step_of m (event.Rx gate from bytes now)).life) row → gate ≡ row.gate → id ≡ row.id → ⊥ }
    ensures limit { (m : Machine) (now : ℤ) (row : PeerRow) → Has (rows_of (step_of m (event.Tick now)).life) row
        → (step_of m (event.Tick now)).moment <ℤ row.limit }
    ensures stay { (m : Machine) (e : EventValue) (row : PeerRow) → (step_of m e).drawn ≡ m.drawn
        → Has (rows_of m.life) row → (EndsRow m e row → ⊥) → Has (rows_of (step_of m e).life) row }
{}
