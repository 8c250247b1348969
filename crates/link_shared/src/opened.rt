//! A link as it is opened, with what each thread has of it.
ghost use Rattle.std.specs.Prelude.{◌≡◌, [], true, None};
ghost use Rattle.link_shared.specs.Audio.{AudioView};
ghost use Rattle.link_shared.specs.Hub.{new_hub};
ghost use Rattle.link_shared.specs.Passes.{AppView};

use crate::desk::Desk;
use crate::hub::Hub;
use crate::keeper::Keeper;
use crate::link::{AppPass, AudioPass, Link};
use crate::name::LinkName;
use crate::parts::{NewCell, Parts};
use crate::queue::show_pass;
use audio_handoff::StateCell;
use client_state::Own;
use std::marker::PhantomData;
use std::sync::Mutex;

/// A link as it is opened, with what each thread has of it.
#[derive(Drop)]
pub struct Opened<C: StateCell<11>, N: LinkName> {
    pub link: Link<C, N>,
    /// The network thread's.
    pub hub: Hub<C, N>,
    /// The audio thread's.
    pub audio: AudioPass<C, N>,
    /// The first application's.
    pub app: AppPass<C, N>,
}

impl<C: StateCell<11>, N: LinkName> Link<C, N> {
    /// The link of these parts, which its type names. Waits: no. Memory: none.
    pub fn make(parts: Parts<C>) -> Opened<C, N>
        requires cells { (parts.app_states ≡ N.app_states) × (parts.audio_states ≡ N.audio_states) × (parts.audio_commits ≡ N.audio_commits) }
        requires queue { parts.queue ≡ N.queue }
        requires ledger { (parts.ledger ≡ N.name) × (parts.shares ≡ N.parts) × (N.whole ≡ N.parts) }
        ensures hub { result.hub ≡ new_hub parts.config parts.opened_at parts.most }
        ensures audio { result.audio ≡ record { seen = []; looks = []; made = [] } }
        ensures app { result.app ≡ record { seen = []; pushed = []; made = 0; own = None; room = 65535; sole = true } }
    {
        let Parts {
            app_states,
            audio_states,
            audio_commits,
            note,
            queue,
            mut pushing,
            popping,
            blank,
            opened_at,
            most,
            node,
            journal,
            published,
            handed,
        } = parts;
        let NewCell {
            cell: app_states,
            writer: app_writer,
            reader,
        } = app_states;
        let NewCell {
            cell: audio_states,
            writer: audio_writer,
            reader: audio_reader,
        } = audio_states;
        let NewCell {
            cell: audio_commits,
            writer: commits_writer,
            reader: commits,
        } = audio_commits;
        let (book, mut share) = blank.open::<N>();
        let none = share.empty();
        let known = show_pass(&queue, &mut pushing);
        Opened {
            link: Link {
                app_states,
                audio_states,
                audio_commits,
                desk: Mutex::new(Desk {
                    reader,
                    pass: pushing,
                    pushed: 0,
                    book,
                }),
                queue,
            },
            hub: Hub {
                keeper: Keeper {
                    opened_at,
                    most,
                    node,
                    journal,
                    published,
                    app_writer,
                    audio_writer,
                    name: PhantomData,
                },
                commits,
                pass: popping,
                handed,
                share: none,
            },
            audio: AudioPass {
                reader: audio_reader,
                writer: commits_writer,
                own: Own { last: None },
                name: PhantomData,
            },
            app: AppPass {
                note,
                pass: known,
                share,
                own: Own { last: None },
                room: 65_535,
                made: 0,
            },
        }
    }
}
