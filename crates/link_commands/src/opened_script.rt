//! A replay script that was checked, and the node that its head opens.

ghost use Rattle.std.specs.Prelude.{◌≤◌, ◌^◌, ◌-◌, length, IfOk, IfErr};
ghost use Rattle.link_commands.specs.Replaying.{IsNodeOpenedAt};
ghost use Rattle.link_commands.specs.Statuses.{replay_command};
ghost use Rattle.link_commands.specs.TextFaults.{IsTextFault};

use crate::reason::Reason;
use crate::text_fault::TextFault;
use link_node::{Node, Sends};
use link_text::{check_replay, explain};
use std::alloc::Global;

/// A node as a script's head opens it, and what is needed to take the script's events.
#[derive(Drop)]
pub(crate) struct OpenedScript {
    /// The script's version, which says how much is told of a state.
    pub(crate) version: u8,
    pub(crate) node: Node,
    /// What follows from one event.
    pub(crate) sends: Sends,
    /// The opening moment, in microseconds.
    pub(crate) now: i64,
    /// Where the lines of the events begin.
    pub(crate) first: usize,
}

/// Checks a whole script, and opens its node. Memory: the node and its list of datagrams.
pub(crate) fn open_script(alloc: Global, text: &[u8]) -> Result<OpenedScript, TextFault>
    requires { length text.now ≤ 1_073_741_824 }
    ensures opened { IfOk result (λ script. IsNodeOpenedAt script.node script.version text.now script.first script.now) }
    ensures fault { IfErr result (IsTextFault replay_command text.now) }
{
    let head = match check_replay(text) {
        Ok(head) => head,
        Err(bad) => {
            return Err(TextFault::Line {
                line: bad.line,
                reason: Reason::Script(explain(text, bad.line)),
            });
        }
    };
    let Ok(node) = Node::new(alloc, &head.config, head.now) else {
        return Err(TextFault::Memory);
    };
    let Ok(sends) = Sends::new(alloc) else {
        return Err(TextFault::Memory);
    };
    Ok(OpenedScript {
        version: head.version,
        node,
        sends,
        now: head.now,
        first: head.first,
    })
}
