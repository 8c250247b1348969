//! What the threads of a link share.
ghost use Rattle.std.specs.Prelude.{◌≡◌};
ghost use Rattle.crossbeam_queue.specs.Passes.{ruled_capacity};

use crate::desk::Desk;
use crate::name::LinkName;
use crate::queue::Queue;
use audio_handoff::StateCell;
use std::sync::Mutex;

mod app;
mod audio;

pub use app::AppPass;
pub use audio::AudioPass;

/// What the threads of a link share: the cells of the states that applications and the audio thread read, the cell of the audio
/// thread's commits, the queue of the applications' commits, and under a lock what applications take in turns.
///
/// An application waits for another application at the lock. The network thread and the audio thread never take it.
#[derive(Drop)]
pub struct Link<C: StateCell<11>, N: LinkName> {
    pub(crate) app_states: C,
    pub(crate) audio_states: C,
    pub(crate) audio_commits: C,
    pub(crate) desk: Mutex<Desk<C, N>>,
    pub(crate) queue: Queue,
    ghost app_states_are: { C.cell app_states ≡ N.app_states },
    ghost audio_states_are: { C.cell audio_states ≡ N.audio_states },
    ghost audio_commits_are: { C.cell audio_commits ≡ N.audio_commits },
    ghost queue_is: { queue.table.shared.table_id ≡ N.queue },
    ghost places: { ruled_capacity queue ≡ 256 },
}
