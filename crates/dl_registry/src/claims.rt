//! Claims: a writer of this process took a place of its application for a context.

ghost use Rattle.std.specs.Prelude.{Some, None};
ghost use Rattle.dl_registry.specs.Kept.{CanClaim, Claims, ClaimsIn};

use crate::registry::{Registry, own_for};
use crate::slot_of;
use dl_apps::apps;
use dl_bytes::{Claim, Id, LAST_VERSION, OwnLevel};
use dl_model::{Context, Description, Places};

impl Registry {
    /// What a claim makes of the registry: its context comes at the claimed place, or gets that place besides. One whose place is not
    /// free, or whose slot is at the last version, changes nothing. No memory is taken.
    pub fn claim(&mut self, claim: &Claim)
        ensures { Claims claim.now self.old self.new }
    {
        let Some(apid) = apps::apid_numbered(&self.apps, claim.app()) else {
            return;
        };
        self.claim_in(apid, claim);
    }

    /// The same, of the application of this id.
    fn claim_in(&mut self, apid: Id, claim: &Claim)
        ensures { ClaimsIn apid claim.now self.old self.new }
    {
        let Some(app) = self.app_of(0, apid) else {
            return;
        };
        let number = app.number();
        let slot = slot_of(number, claim.place());
        if self.table.wanted(slot).is_some() {
            return;
        }
        if self.table.held(slot).version == LAST_VERSION {
            return;
        }
        match app.context(claim.ctid()) {
            Some(context) => {
                let own = context.own;
                self.add_place(apid, number, claim, own);
            }
            None => self.add_claimed(apid, number, claim),
        }
    }

    /// A context that is there, with this level of its own, gets the claimed place besides.
    fn add_place(&mut self, apid: Id, number: u8, claim: &Claim, own: OwnLevel)
        requires { CanClaim self.old apid number claim.now (Some own) }
        ensures { ClaimsIn apid claim.now self.old self.new }
    {
        apps::add_place(&mut self.apps, apid, claim.ctid(), claim.place());
        let slot = slot_of(number, claim.place());
        self.table.give(slot, own.effective(self.level));
    }

    /// A context comes at the claimed place.
    fn add_claimed(&mut self, apid: Id, number: u8, claim: &Claim)
        requires { CanClaim self.old apid number claim.now None }
        ensures { ClaimsIn apid claim.now self.old self.new }
    {
        let own = own_for(&self.stored, apid, claim.ctid(), claim.level());
        let context = Context {
            place: claim.place(),
            further: Places::none(),
            own,
            position: 0,
            text: Description::claimed(claim.text().copy()),
        };
        apps::add_context(&mut self.apps, apid, claim.ctid(), context);
        let slot = slot_of(number, claim.place());
        self.table.give(slot, own.effective(self.level));
    }
}
