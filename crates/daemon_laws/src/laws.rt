//! The laws: one status for one run, one line at fault for one text, and a valid input is done with.

ghost use Rattle.daemon_laws.specs.OneStatus.{HasOneStatus, HaveOneFaultLine};
ghost use Rattle.daemon_laws.specs.ValidInput.{CompleteValid};

use link_control::control_ends_tell;
use link_live::ends_tell_courses;
use link_text::{one_live_head, one_live_script, one_script};

/// The causes of two statuses never hold together: what a run did names its status, with the line at fault, where a run under control has
/// a talk that tells. Want of memory is the one free answer. The words that say to people why a line is at fault are left out.
pub fn one_status()
    ensures { HasOneStatus }
{
    // Laws, for the proof: a script has one first line at fault, and the end of a run tells what it met.
    one_script();
    one_live_script();
    one_live_head();
    ends_tell_courses();
    control_ends_tell();
}

/// The first line at fault of a script of either kind, of the head of one, and of a text of datagrams or of pairs, is one line.
pub fn one_fault_line()
    ensures { HaveOneFaultLine }
{
    // Laws, for the proof: a script has one first line at fault.
    one_script();
    one_live_script();
    one_live_head();
}

/// A run of a command over a valid input, or of a load, is done, or there was no memory, unless a count of failures rose; so is a run on
/// the network whose events found room in the journal, the end last, one under control where its client sends no more lines than are
/// answered.
pub fn valid_is_done()
    ensures { CompleteValid }
{
    // Laws, for the proof: the end of a run tells what it met.
    ends_tell_courses();
    control_ends_tell();
}
