//! A small actor over a table of actions, which shows that `Firing` can be met.

ghost use Rattle.std.specs.Prelude.{◌≡◌, ◌+◌, ◌≤◌, ◌<◌, [], ◌∷◌, ◌++◌, ℕ, length, map, drop, slice_get, pos, true, false, Some, IfSome, IfNone};
ghost use Rattle.net_model.specs.Cell.{AreRooms, Looks};
ghost use Rattle.net_model.specs.TableActor.{table_cell, row_of, takes_of, NoneHas};

use super::*;
use arrayvec::ArrayVec;

/// How many tokens an action takes, whether its guards trap, and by what it traps if it does.
type Row = (usize, bool, Option<Trap>);

/// An actor with three actions, one input and one output. The first action that has its tokens is to fire, and
/// sends the token 1.
#[derive(Drop)]
struct TableCell {
    rows: [Row; 3],
    inbox: ArrayVec<Num, 4>,
    outbox: ArrayVec<Num, 4>,
    journal: ArrayVec<u16, 4>,
    trapped: bool,
}

impl TableCell {
    fn new(rows: [Row; 3], inbox: ArrayVec<Num, 4>) -> TableCell
        ensures untrapped { result.trapped ≡ false }
        ensures journal { result.journal.items ≡ [] }
    {
        TableCell {
            rows,
            inbox,
            outbox: ArrayVec::new(),
            journal: ArrayVec::new(),
            trapped: false,
        }
    }

    /// The first action that has its tokens.
    fn selected(&self) -> Option<usize>
        ensures low { IfSome result (λ a. a < length self.now.rows) }
        ensures has { IfSome result (λ a. takes_of
            (slice_get (map row_of self.now.rows) a) ≤ length self.now.inbox.items) }
        ensures earlier { IfSome result
            (λ a. (b : ℕ) → b < a → length self.now.inbox.items < takes_of
            (slice_get (map row_of self.now.rows) b)) }
        ensures none { IfNone result (NoneHas (map row_of self.now.rows)
            (length self.now.inbox.items)) }
    {
        let waiting = self.inbox.len();
        for a in 0..self.rows.len() {
            if self.rows[a].0 <= waiting {
                return Some(a);
            }
        }
        None
    }

    /// What selection gives now.
    fn look_at(&self, rooms: &[u32]) -> Look
        requires { AreRooms (table_cell self.now.rows self.now.inbox.items self.now.outbox.items
            self.now.journal.items self.now.trapped) rooms.now }
        ensures { Looks rooms.now (table_cell self.now.rows self.now.inbox.items
            self.now.outbox.items self.now.journal.items self.now.trapped) result }
    {
        let Some(a) = self.selected() else {
            return Look::Waits;
        };
        let action = ActId(a as u16);
        let (_, in_guard, trap) = self.rows[a];
        if in_guard {
            if let Some(trap) = trap {
                return Look::GuardTrap(action, trap);
            }
        }
        if rooms[0] as usize <= self.outbox.len() {
            Look::NoRoom { action, port: 0 }
        } else {
            Look::Ready(action)
        }
    }

    /// Takes tokens from the front of the inbox.
    fn take(&mut self, count: usize)
        requires { count ≤ length self.old.inbox.items }
        ensures inbox { self.new.inbox.items ≡ drop count self.old.inbox.items }
        ensures rows { self.new.rows ≡ self.old.rows }
        ensures outbox { self.new.outbox ≡ self.old.outbox }
        ensures journal { self.new.journal ≡ self.old.journal }
        ensures trapped { self.new.trapped ≡ self.old.trapped }
    {
        for _ in 0..count {
            self.inbox.remove(0);
        }
    }
}

impl Firing for TableCell {
    ghost use Rattle.net_model.specs.TableActor.{table_cell};

    ghost State = { Unit {0} };

    ghost cell = { λ c. table_cell c.rows c.inbox.items c.outbox.items c.journal.items c.trapped };

    fn burst(&mut self, limit: u32, rooms: &[u32]) -> BurstEnd {
        for _ in 0..limit {
            match self.look_at(rooms) {
                Look::Waits => return BurstEnd::Waits,
                Look::NoRoom { action, port } => return BurstEnd::NoRoom { action, port },
                Look::GuardTrap(action, trap) => {
                    self.trapped = true;
                    return BurstEnd::Trap { action, trap };
                }
                Look::Ready(action) => match self.try_fire(action, rooms) {
                    Tried::Fired => self.journal.push(action.0),
                    Tried::Trap(trap) => return BurstEnd::Trap { action, trap },
                    _ => unreachable!(),
                },
            }
        }
        BurstEnd::Spent
    }

    fn look(&mut self, rooms: &[u32]) -> Look {
        self.look_at(rooms)
    }

    fn try_fire(&mut self, action: ActId, rooms: &[u32]) -> Tried {
        let Some(a) = self.selected() else {
            return Tried::NotExposed;
        };
        if usize::from(action.0) != a {
            return Tried::NotExposed;
        }
        let (takes, in_guard, trap) = self.rows[a];
        if in_guard {
            if let Some(trap) = trap {
                self.trapped = true;
                return Tried::Trap(trap);
            }
        }
        if rooms[0] as usize <= self.outbox.len() {
            return Tried::NoRoom { port: 0 };
        }
        if let Some(trap) = trap {
            self.trapped = true;
            return Tried::Trap(trap);
        }
        self.take(takes);
        self.outbox.push(1);
        Tried::Fired
    }

    fn journal(&self) -> &[u16] {
        self.journal.as_slice()
    }

    fn held(&self, _port: u32) -> u32 {
        self.inbox.len() as u32
    }

    fn accept(&mut self, _port: u32, token: Num) {
        self.inbox.push(token);
    }

    fn take_back(&mut self, _port: u32) -> Num {
        self.inbox.pop().unwrap()
    }

    fn sent(&self, _port: u32) -> u32 {
        self.outbox.len() as u32
    }

    fn sent_at(&self, _port: u32, k: u32) -> Num {
        self.outbox.as_slice()[k as usize]
    }

    fn clear(&mut self) {
        self.outbox.clear();
        self.journal.clear();
    }

    fn give(&self, _action: ActId, _port: u32) -> u32 {
        1
    }

    fn outs(&self) -> u32 {
        // their lengths are at most their capacities
        let _held = self.inbox.len();
        let _sent = self.outbox.len();
        1
    }
}

/// The first four of these tokens.
fn inbox_of(tokens: &[Num]) -> ArrayVec<Num, 4> {
    let mut inbox = ArrayVec::new();
    for token in tokens {
        if inbox.len() < 4 {
            inbox.push(*token);
        }
    }
    inbox
}

/// How a burst of at most `limit` firings ends, how many were made, and how many tokens are left and were sent.
fn burst_of(rows: [Row; 3], tokens: &[Num], limit: u32) -> (BurstEnd, usize, u32, u32)
    requires { limit ≤ 4 }
{
    let mut cell = TableCell::new(rows, inbox_of(tokens));
    let end = cell.burst(limit, &[3]);
    (end, cell.journal().len(), cell.held(0), cell.sent(0))
}

#[test]
fn bursts(rt: HostRuntime) {
    let pairs = [(2, false, None), (9, false, None), (9, false, None)];
    let traps = [
        (2, false, None),
        (1, false, Some(Trap::Overflow)),
        (9, false, None),
    ];
    let faults = [
        (2, false, None),
        (1, true, Some(Trap::IndexRange)),
        (9, false, None),
    ];
    let sources = [(0, false, None), (9, false, None), (9, false, None)];
    let action = ActId(1);
    let ends = [
        (burst_of(pairs, &[5, 6, 7], 4), (BurstEnd::Waits, 1, 1, 1)),
        (
            burst_of(pairs, &[5, 6, 7, 8], 1),
            (BurstEnd::Spent, 1, 2, 1),
        ),
        (
            burst_of(traps, &[5, 6, 7], 4),
            (
                BurstEnd::Trap {
                    action,
                    trap: Trap::Overflow,
                },
                1,
                1,
                1,
            ),
        ),
        (
            burst_of(faults, &[5], 4),
            (
                BurstEnd::Trap {
                    action,
                    trap: Trap::IndexRange,
                },
                0,
                1,
                0,
            ),
        ),
        (
            burst_of(sources, &[], 4),
            (
                BurstEnd::NoRoom {
                    action: ActId(0),
                    port: 0,
                },
                3,
                0,
                3,
            ),
        ),
    ];
    for (found, wanted) in ends.iter() {
        assert!(rt; found == wanted);
    }
}
