//! What is true of all lines.

ghost use Rattle.link_asks.specs.Asks.{AreAsks};
ghost use Rattle.link_asks.specs.Reasons.{AreReasons};

/// Laws: a line asks for one thing at most, and a long line for nothing; what is wrong with a line is one reason.
pub fn ask_laws()
    ensures asks { AreAsks }
    ensures reasons { AreReasons }
{}
