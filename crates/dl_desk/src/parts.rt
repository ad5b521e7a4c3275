//! The parts of a desk, as they are made application by application.

ghost use Rattle.std.specs.Prelude.{◌≡◌, ◌<◌, ◌≤◌, ◌∷◌, ◌++◌, List, [], length, vec_len, IfOk};
ghost use Rattle.dl_bytes.specs.declared.conf.AppSpec.{AppSpec as spec_type};
ghost use Rattle.dl_desk.specs.Apps.{declared_apps};
ghost use Rattle.dl_desk.specs.Assembly.{ArePartsOf};
ghost use Rattle.dl_desk.specs.HandlesInside.{words_for};
ghost use Rattle.dl_desk.specs.Made.{IsNew};

use crate::app::{App, AppList, copied};
use crate::app_handles::{AppHandles, FirstHandles};
use crate::counted_take::CountedTake;
use crate::desk::Desk;
use crate::handles::DaemonHandles;
use arrayvec::ArrayVec;
use dl_bytes::{AppSpec, OutOfMemory, Sequence};
use dl_cells::{make_levels, make_losses};
use dl_ring::{make_injections, make_ring};
use std::alloc::Global;

// The version at which each slot begins.
const FIRST_VERSION: u64 = 0;

/// The handles of each application, which the daemon and its writers will share, and the applications.
#[derive(Drop)]
pub struct Parts {
    apps: Vec<AppSpec>,
    handles: Vec<AppHandles>,
    firsts: Vec<FirstHandles>,
    list: Vec<App>,
}

impl Parts {
    /// Of no application.
    pub fn none(alloc: Global) -> Parts
        ensures { ArePartsOf [] result }
    {
        Parts {
            apps: Vec::new(alloc),
            handles: Vec::new(alloc),
            firsts: Vec::new(alloc),
            list: Vec::new(alloc),
        }
    }

    /// The parts of one application more.
    pub fn add(&mut self, alloc: Global, spec: &AppSpec) -> Result<(), OutOfMemory>
        requires few { vec_len self.old.list < 16 }
        requires capacity { (1 ≤ spec.now.capacity) × (spec.now.capacity ≤ 4096) }
        requires text { length spec.now.text ≤ 255 }
        ensures { IfOk result (λ _. (specs : List spec_type) → ArePartsOf specs self.old → ArePartsOf (specs ++ spec.now ∷ []) self.new) }
    {
        let number = self.list.len() as u8;
        let app = App::declared(alloc, number, spec)?;
        let (push, pass) = make_ring(alloc, spec.capacity)?;
        let ring = CountedTake::over(pass);
        let (queue, injections) = make_injections(alloc)?;
        self.apps.push(AppSpec {
            apid: spec.apid,
            capacity: spec.capacity,
            text: copied(alloc, spec.text.all())?,
        })?;
        self.handles.push(AppHandles { ring, queue })?;
        self.firsts.push(FirstHandles { push, injections })?;
        self.list.push(app)?;
        Ok(())
    }

    /// The desk of these applications, with the words that they share, and the applications.
    pub fn into_desk(self, alloc: Global) -> Result<(Desk, AppList), OutOfMemory>
        requires few { vec_len self.apps ≤ 16 }
        requires parts { ArePartsOf self.apps.items self }
        ensures desk { IfOk result (λ made. IsNew made.0 self.apps.items) }
        ensures apps { IfOk result (λ made. made.1 ≡ declared_apps 0 self.apps.items) }
    {
        let Parts {
            apps,
            handles,
            firsts,
            list,
        } = self;
        let count = words_for(apps.len());
        let (levels, readers) = make_levels(alloc, 64 * u16::from(count), FIRST_VERSION)?;
        let (losses, counters) = make_losses(alloc, count)?;
        let desk = Desk {
            apps: Sequence::over(apps),
            handles: DaemonHandles {
                apps: handles,
                levels,
                losses,
            },
            firsts,
            readers,
            counters,
            owners: ArrayVec::new(),
        };
        Ok((desk, AppList { apps: list }))
    }
}

// For how many applications there are words: for one at least.
fn words_for(apps: usize) -> u8
    requires { apps ≤ 16 }
    ensures value { result ≡ words_for apps }
    ensures range { (1 ≤ result) × (result ≤ 16) }
{
    if apps == 0 { 1 } else { apps as u8 }
}
