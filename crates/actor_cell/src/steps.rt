//! The steps of which the work of a cell is made: what it would do, one firing, and one turn of a burst.

ghost use Rattle.std.specs.Prelude.{◌≡◌, ◌<◌, IfNone, IfSome, false, length};
ghost use Rattle.net_model.specs.Cell.{AreRooms, FiresTo, HasRoom, LacksRoomOn, Looks, choice_of};
ghost use Rattle.guard_select.specs.Selecting.{chosen_of};
ghost use Rattle.actor_cell.specs.Acting.{HasEnded, HasRoomToSend, HasTurned, IsAsked, IsToFire, TrapsInside};
ghost use Rattle.actor_cell.specs.Core.{IsUntouched, seen};

use crate::acting::evaluate;
use crate::cell::Cell;
use crate::rooms::{lacking, send_each};
use crate::waiting::{Waiting, take_each};
use code_ir::laws::has_one_end;
use guard_select::{Choice, Ready, is_exposed, readiness, select};
use lowered_actor::laws;
use net_model::{BurstEnd, Firing, Look};
use rvc_base::{ActId, Trap};

impl Cell {
    /// What selection gives now.
    #[inline]
    fn choose(&mut self) -> Choice
        ensures choice { chosen_of result ≡ choice_of (seen self.new) }
        ensures untouched { IsUntouched self.old self.new }
    {
        let waiting = Waiting {
            rings: &self.inboxes,
        };
        select(&self.code, &mut self.cells, self.state, &waiting)
    }

    /// What the guards of an action say if it is exposed.
    pub(crate) fn ask(&mut self, a: u16) -> Ready
        ensures asked { IsAsked self.new a result }
        ensures untouched { IsUntouched self.old self.new }
    {
        laws::lowered_actors_are_lawful();
        laws::runs_are_the_meaning();
        has_one_end();
        let _code = self.code.code();
        if usize::from(a) >= self.code.actions() {
            return Ready::False;
        }
        let waiting = Waiting {
            rings: &self.inboxes,
        };
        if !is_exposed(&self.code, a, &mut self.cells, self.state, &waiting) {
            return Ready::False;
        }
        readiness(&self.code, a, &mut self.cells, self.state, &waiting)
    }

    /// The first output port that lacks room for what an action gives.
    pub(crate) fn lacks_room(&self, a: u16, rooms: &[u32]) -> Option<u32>
        requires action { a < length self.now.actor.actions }
        requires rooms { AreRooms (seen self.now) rooms.now }
        ensures some { IfSome result (LacksRoomOn (seen self.now) rooms.now a) }
        ensures none { IfNone result (HasRoom (seen self.now) rooms.now a) }
    {
        // it tells that there is a number for each port
        let _code = self.code.code();
        let gives = &self.code.action(a).gives;
        lacking(&self.outboxes, self.code.outs(), gives, rooms)
    }

    /// What selection gives now, and whether it has room.
    pub(crate) fn look_at(&mut self, rooms: &[u32]) -> Look
        requires rooms { AreRooms (seen self.old) rooms.now }
        ensures looks { Looks rooms.now (seen self.new) result }
        ensures untouched { IsUntouched self.old self.new }
    {
        let choice = self.choose();
        self.with_room(choice, rooms)
    }

    /// The same of what selection gave.
    fn with_room(&self, choice: Choice, rooms: &[u32]) -> Look
        requires rooms { AreRooms (seen self.now) rooms.now }
        requires choice { chosen_of choice ≡ choice_of (seen self.now) }
        ensures looks { Looks rooms.now (seen self.now) result }
    {
        // they tell that an action which is chosen is there
        laws::lowered_actors_are_lawful();
        let _code = self.code.code();
        match choice {
            Choice::Wait => return Look::Waits,
            Choice::Trap(action, trap) => return Look::GuardTrap(action, trap),
            Choice::Fire(action) => match self.lacks_room(action.0, rooms) {
                Some(port) => return Look::NoRoom { action, port },
                None => return Look::Ready(action),
            },
        }
    }

    /// Fires an action that is exposed, enabled and has room; or its locals, body or outputs trap. The journal stays.
    pub(crate) fn fire(&mut self, a: u16) -> Option<Trap>
        requires to_fire { IsToFire self.old a }
        requires room { HasRoomToSend self.old a }
        ensures fired { IfNone result (FiresTo (seen self.old) a (seen self.new)) }
        ensures trapped { IfSome result (λ cause. TrapsInside self.old a cause self.new) }
        ensures journal { self.new.journal ≡ self.old.journal }
        ensures journal_room { self.new.journal_room ≡ self.old.journal_room }
    {
        let waiting = Waiting {
            rings: &self.inboxes,
        };
        if let Some(trap) = evaluate(&self.code, a, &mut self.cells, self.state, &waiting) {
            self.trapped = true;
            return Some(trap);
        }
        // they tell that there is a number for each port, and how many cells there are
        let _count = self.code.code().cells();
        let action = self.code.action(a);
        send_each(&mut self.outboxes, action, &self.cells);
        take_each(&mut self.inboxes, &action.needs);
        self.state = self.code.fsm().next(self.state, a);
        None
    }

    /// One turn of a burst: the selected action fires, and the journal names it; or why none does.
    pub(crate) fn turn(&mut self, rooms: &[u32]) -> Option<BurstEnd>
        requires untrapped { self.old.trapped ≡ false }
        requires rooms { AreRooms (seen self.old) rooms.now }
        requires journal { length self.old.journal < self.old.journal_room }
        ensures turned { IfNone result (HasTurned rooms.now (seen self.old) (seen self.new)) }
        ensures ended { IfSome result (λ end. HasEnded rooms.now (seen self.old) end
            (seen self.new)) }
    {
        match self.look_at(rooms) {
            Look::Waits => return Some(BurstEnd::Waits),
            Look::NoRoom { action, port } => return Some(BurstEnd::NoRoom { action, port }),
            Look::GuardTrap(action, trap) => {
                self.trapped = true;
                return Some(BurstEnd::Trap { action, trap });
            }
            Look::Ready(action) => {
                // it tells that the selected action is to fire
                let _outs = self.outs();
                match self.fire(action.0) {
                    Some(trap) => return Some(BurstEnd::Trap { action, trap }),
                    None => {
                        self.journal.push_reserved(action.0);
                        return None;
                    }
                }
            }
        }
    }
}
