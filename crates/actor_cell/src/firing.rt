//! A cell as networks see it.

ghost use Rattle.lowered_actor.specs.Meaning.{ActorState};

use crate::cell::Cell;
use crate::rooms::clear_each;
use guard_select::Ready;
use lowered_actor::laws;
use net_model::{BurstEnd, Firing, Look, Tried};
use rvc_base::{ActId, Num};

impl Firing for Cell {
    ghost use Rattle.lowered_actor.specs.Meaning.{ActorState};
    ghost use Rattle.actor_cell.specs.Core.{seen};

    ghost State = { ActorState };

    ghost cell = { seen };

    fn burst(&mut self, limit: u32, rooms: &[u32]) -> BurstEnd {
        for _turn in 0..limit {
            match self.turn(rooms) {
                Some(end) => return end,
                None => {}
            }
        }
        BurstEnd::Spent
    }

    fn look(&mut self, rooms: &[u32]) -> Look {
        self.look_at(rooms)
    }

    fn try_fire(&mut self, action: ActId, rooms: &[u32]) -> Tried {
        match self.ask(action.0) {
            Ready::False => return Tried::NotExposed,
            Ready::Trap(trap) => {
                self.trapped = true;
                return Tried::Trap(trap);
            }
            Ready::True => {}
        }
        if let Some(port) = self.lacks_room(action.0, rooms) {
            return Tried::NoRoom { port };
        }
        match self.fire(action.0) {
            Some(trap) => Tried::Trap(trap),
            None => Tried::Fired,
        }
    }

    #[inline]
    fn journal(&self) -> &[u16] {
        self.journal.as_slice()
    }

    #[inline]
    fn held(&self, port: u32) -> u32 {
        self.inboxes[port as usize].len()
    }

    #[inline]
    fn accept(&mut self, port: u32, token: Num) {
        self.inboxes[port as usize].push(token);
    }

    fn take_back(&mut self, port: u32) -> Num {
        self.inboxes[port as usize].take_back()
    }

    #[inline]
    fn sent(&self, port: u32) -> u32 {
        self.outboxes[port as usize].len()
    }

    #[inline]
    fn sent_at(&self, port: u32, k: u32) -> Num {
        self.outboxes[port as usize].at(k)
    }

    fn clear(&mut self) {
        clear_each(&mut self.outboxes);
        self.journal.clear();
    }

    #[inline]
    fn give(&self, action: ActId, port: u32) -> u32 {
        // it tells that there is a number for each port
        let _code = self.code.code();
        self.code.action(action.0).gives[port as usize]
    }

    #[inline]
    fn outs(&self) -> u32 {
        // they tell what holds of every lowered actor
        laws::lowered_actors_are_lawful();
        let _code = self.code.code();
        self.code.outs()
    }
}
