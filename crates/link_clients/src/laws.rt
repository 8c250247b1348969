//! What is true of each client of a server.

ghost use Rattle.link_clients.specs.Visits.{AreAnsweredInOrder};

/// A law: since a client came, its whole lines, however its bytes were cut, were answered each once and in order, each by one published
/// state, and between the answers it was told nothing but what is shown.
pub fn clients_are_answered_in_order()
    ensures { AreAnsweredInOrder }
{}
