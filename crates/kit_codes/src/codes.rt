//! The code of each actor and what stands round it.

use crate::draft::{Draft, Shape};
use code_ir::Instr;
use lowered_actor::StateCell;
use rvc_base::Scalar;

const BIT: Option<Scalar> = Some(Scalar::Uint(1));

const PAIR: Option<Scalar> = Some(Scalar::Uint(2));

const BYTE: Option<Scalar> = Some(Scalar::Uint(8));

const COUNT: Option<Scalar> = Some(Scalar::Int(8));

/// The type of tokens of 16 bits.
pub(crate) const SHORT: Option<Scalar> = Some(Scalar::Int(16));

/// One is added.
pub(crate) const INC: Draft = Draft {
    instrs: &[
        Instr::Token(0, 0),
        Instr::Const(1),
        Instr::Add,
        Instr::Store(0, BYTE),
        Instr::Done,
    ],
    entries: &[0],
    cells: 1,
    actions: &[Shape {
        needs: &[1],
        gives: 1,
        guards: &[],
        fire: 0,
        sends: 0,
    }],
    start: 0,
    kept: 0,
    saved: &[],
    ins: 1,
};

/// A byte is sent on.
pub(crate) const COPY: Draft = Draft {
    instrs: &[Instr::Token(0, 0), Instr::Store(0, BYTE), Instr::Done],
    entries: &[0],
    cells: 1,
    actions: &[Shape {
        needs: &[1],
        gives: 1,
        guards: &[],
        fire: 0,
        sends: 0,
    }],
    start: 0,
    kept: 0,
    saved: &[],
    ins: 1,
};

/// Sixteen bits are sent on.
pub(crate) const WIDE: Draft = Draft {
    instrs: &[Instr::Token(0, 0), Instr::Store(0, SHORT), Instr::Done],
    entries: &[0],
    cells: 1,
    actions: &[Shape {
        needs: &[1],
        gives: 1,
        guards: &[],
        fire: 0,
        sends: 0,
    }],
    start: 0,
    kept: 0,
    saved: &[],
    ins: 1,
};

/// The sum of two tokens.
pub(crate) const SUM: Draft = Draft {
    instrs: &[
        Instr::Token(0, 0),
        Instr::Token(0, 1),
        Instr::Add,
        Instr::Store(0, BYTE),
        Instr::Done,
    ],
    entries: &[0],
    cells: 1,
    actions: &[Shape {
        needs: &[2],
        gives: 1,
        guards: &[],
        fire: 0,
        sends: 0,
    }],
    start: 0,
    kept: 0,
    saved: &[],
    ins: 1,
};

/// The quotient of two tokens.
pub(crate) const DIV: Draft = Draft {
    instrs: &[
        Instr::Token(0, 0),
        Instr::Token(0, 1),
        Instr::Div,
        Instr::Store(0, BYTE),
        Instr::Done,
    ],
    entries: &[0],
    cells: 1,
    actions: &[Shape {
        needs: &[2],
        gives: 1,
        guards: &[],
        fire: 0,
        sends: 0,
    }],
    start: 0,
    kept: 0,
    saved: &[],
    ins: 1,
};

/// The sum of tokens of two ports.
pub(crate) const JOIN: Draft = Draft {
    instrs: &[
        Instr::Token(0, 0),
        Instr::Token(1, 0),
        Instr::Add,
        Instr::Store(0, BYTE),
        Instr::Done,
    ],
    entries: &[0],
    cells: 1,
    actions: &[Shape {
        needs: &[1, 1],
        gives: 1,
        guards: &[],
        fire: 0,
        sends: 0,
    }],
    start: 0,
    kept: 0,
    saved: &[],
    ins: 2,
};

/// What isn't below 0 times the sum of what isn't above 255 and of 255 for what is.
pub(crate) const SAT: Draft = Draft {
    instrs: &[
        Instr::Token(0, 0),
        Instr::Const(128),
        Instr::Add,
        Instr::Const(0),
        Instr::Lt,
        Instr::Not,
        Instr::Const(255),
        Instr::Token(0, 0),
        Instr::Const(128),
        Instr::Add,
        Instr::Lt,
        Instr::Not,
        Instr::Token(0, 0),
        Instr::Const(128),
        Instr::Add,
        Instr::Mul,
        Instr::Const(255),
        Instr::Token(0, 0),
        Instr::Const(128),
        Instr::Add,
        Instr::Lt,
        Instr::Const(255),
        Instr::Mul,
        Instr::Add,
        Instr::Mul,
        Instr::Store(0, BYTE),
        Instr::Done,
    ],
    entries: &[0],
    cells: 1,
    actions: &[Shape {
        needs: &[1],
        gives: 1,
        guards: &[],
        fire: 0,
        sends: 0,
    }],
    start: 0,
    kept: 0,
    saved: &[],
    ins: 1,
};

/// The instructions are made by a loop.
pub(crate) const ZIGZAG: Draft = Draft {
    instrs: &[],
    entries: &[0],
    cells: 64,
    actions: &[Shape {
        needs: &[64],
        gives: 64,
        guards: &[],
        fire: 0,
        sends: 0,
    }],
    start: 0,
    kept: 0,
    saved: &[],
    ins: 1,
};

/// Two pairs, each the other way round.
pub(crate) const REP: Draft = Draft {
    instrs: &[
        Instr::Token(0, 1),
        Instr::Store(0, BYTE),
        Instr::Token(0, 0),
        Instr::Store(1, BYTE),
        Instr::Token(0, 3),
        Instr::Store(2, BYTE),
        Instr::Token(0, 2),
        Instr::Store(3, BYTE),
        Instr::Done,
    ],
    entries: &[0],
    cells: 4,
    actions: &[Shape {
        needs: &[4],
        gives: 4,
        guards: &[],
        fire: 0,
        sends: 0,
    }],
    start: 0,
    kept: 0,
    saved: &[],
    ins: 1,
};

/// The guard looks at the second token.
pub(crate) const PEEK: Draft = Draft {
    instrs: &[
        Instr::Const(100),
        Instr::Token(0, 1),
        Instr::Lt,
        Instr::Answer,
        Instr::Token(0, 0),
        Instr::Store(0, BYTE),
        Instr::Done,
    ],
    entries: &[0, 4],
    cells: 1,
    actions: &[Shape {
        needs: &[2],
        gives: 1,
        guards: &[0],
        fire: 4,
        sends: 0,
    }],
    start: 0,
    kept: 0,
    saved: &[],
    ins: 1,
};

/// The guard divides, so it can trap.
pub(crate) const QUO: Draft = Draft {
    instrs: &[
        Instr::Const(100),
        Instr::Token(0, 0),
        Instr::Div,
        Instr::Const(50),
        Instr::Lt,
        Instr::Answer,
        Instr::Done,
    ],
    entries: &[0, 6],
    cells: 1,
    actions: &[Shape {
        needs: &[1],
        gives: 0,
        guards: &[0],
        fire: 6,
        sends: 0,
    }],
    start: 0,
    kept: 0,
    saved: &[],
    ins: 1,
};

/// Two actions, the first above the second.
pub(crate) const TWO: Draft = Draft {
    instrs: &[
        Instr::Token(0, 0),
        Instr::Token(0, 1),
        Instr::Add,
        Instr::Store(0, BYTE),
        Instr::Done,
        Instr::Token(0, 0),
        Instr::Store(0, BYTE),
        Instr::Done,
    ],
    entries: &[0, 5],
    cells: 1,
    actions: &[
        Shape {
            needs: &[2],
            gives: 1,
            guards: &[],
            fire: 0,
            sends: 0,
        },
        Shape {
            needs: &[1],
            gives: 1,
            guards: &[],
            fire: 5,
            sends: 0,
        },
    ],
    start: 0,
    kept: 0,
    saved: &[],
    ins: 1,
};

/// The guard at 0, the firings at 4 and 7. Cell 0 is the state variable.
pub(crate) const RACE: Draft = Draft {
    instrs: &[
        Instr::Load(0),
        Instr::Const(0),
        Instr::Eq,
        Instr::Answer,
        Instr::Const(2),
        Instr::Store(0, PAIR),
        Instr::Done,
        Instr::Const(1),
        Instr::Store(0, PAIR),
        Instr::Const(1),
        Instr::Store(1, BYTE),
        Instr::Done,
    ],
    entries: &[0, 4, 7],
    cells: 2,
    actions: &[
        Shape {
            needs: &[1],
            gives: 0,
            guards: &[0],
            fire: 4,
            sends: 1,
        },
        Shape {
            needs: &[0],
            gives: 1,
            guards: &[0],
            fire: 7,
            sends: 1,
        },
    ],
    start: 0,
    kept: 1,
    saved: &[StateCell {
        cell: 0,
        kind: Scalar::Uint(2),
    }],
    ins: 1,
};

/// The guards at 0 and 4, the firings at 8 and 11. Cell 0 is the state variable.
pub(crate) const LATE: Draft = Draft {
    instrs: &[
        Instr::Load(0),
        Instr::Const(0),
        Instr::Eq,
        Instr::Answer,
        Instr::Load(0),
        Instr::Const(2),
        Instr::Eq,
        Instr::Answer,
        Instr::Const(2),
        Instr::Store(0, PAIR),
        Instr::Done,
        Instr::Token(0, 0),
        Instr::Token(0, 1),
        Instr::Div,
        Instr::Store(1, BYTE),
        Instr::Done,
    ],
    entries: &[0, 4, 8, 11],
    cells: 2,
    actions: &[
        Shape {
            needs: &[2, 0],
            gives: 0,
            guards: &[0],
            fire: 8,
            sends: 1,
        },
        Shape {
            needs: &[2, 2],
            gives: 1,
            guards: &[4],
            fire: 11,
            sends: 1,
        },
    ],
    start: 0,
    kept: 1,
    saved: &[StateCell {
        cell: 0,
        kind: Scalar::Uint(2),
    }],
    ins: 2,
};

/// The guards at 0 and 4, the firings at 9 and 14. Cell 0 is the state variable.
pub(crate) const ALT: Draft = Draft {
    instrs: &[
        Instr::Load(0),
        Instr::Const(0),
        Instr::Eq,
        Instr::Answer,
        Instr::Load(0),
        Instr::Const(0),
        Instr::Eq,
        Instr::Not,
        Instr::Answer,
        Instr::Const(1),
        Instr::Store(0, BIT),
        Instr::Token(0, 0),
        Instr::Store(1, BYTE),
        Instr::Done,
        Instr::Const(0),
        Instr::Store(0, BIT),
        Instr::Token(1, 0),
        Instr::Store(1, BYTE),
        Instr::Done,
    ],
    entries: &[0, 4, 9, 14],
    cells: 2,
    actions: &[
        Shape {
            needs: &[1, 0],
            gives: 1,
            guards: &[0],
            fire: 9,
            sends: 1,
        },
        Shape {
            needs: &[0, 1],
            gives: 1,
            guards: &[4],
            fire: 14,
            sends: 1,
        },
    ],
    start: 0,
    kept: 1,
    saved: &[StateCell {
        cell: 0,
        kind: Scalar::Uint(1),
    }],
    ins: 2,
};

/// `initialize` leads from state 1, the fresh one, to state 0.
pub(crate) const INI: Draft = Draft {
    instrs: &[
        Instr::Const(9),
        Instr::Store(0, BYTE),
        Instr::Done,
        Instr::Token(0, 0),
        Instr::Store(0, BYTE),
        Instr::Done,
    ],
    entries: &[0, 3],
    cells: 1,
    actions: &[
        Shape {
            needs: &[0],
            gives: 1,
            guards: &[],
            fire: 0,
            sends: 0,
        },
        Shape {
            needs: &[1],
            gives: 1,
            guards: &[],
            fire: 3,
            sends: 0,
        },
    ],
    start: 1,
    kept: 0,
    saved: &[],
    ins: 1,
};

/// Guards: below 10 at 0, not below 10 at 4, below 20 at 9, not below 20 at 13. Firings from 18 on.
pub(crate) const FSM: Draft = Draft {
    instrs: &[
        Instr::Token(0, 0),
        Instr::Const(10),
        Instr::Lt,
        Instr::Answer,
        Instr::Token(0, 0),
        Instr::Const(10),
        Instr::Lt,
        Instr::Not,
        Instr::Answer,
        Instr::Token(0, 0),
        Instr::Const(20),
        Instr::Lt,
        Instr::Answer,
        Instr::Token(0, 0),
        Instr::Const(20),
        Instr::Lt,
        Instr::Not,
        Instr::Answer,
        Instr::Const(1),
        Instr::Store(0, BYTE),
        Instr::Done,
        Instr::Const(2),
        Instr::Store(0, BYTE),
        Instr::Done,
        Instr::Const(3),
        Instr::Store(0, BYTE),
        Instr::Done,
        Instr::Token(0, 0),
        Instr::Store(0, BYTE),
        Instr::Done,
    ],
    entries: &[0, 4, 9, 13, 18, 21, 24, 27],
    cells: 1,
    actions: &[
        Shape {
            needs: &[1],
            gives: 1,
            guards: &[0],
            fire: 18,
            sends: 0,
        },
        Shape {
            needs: &[1],
            gives: 1,
            guards: &[4, 9],
            fire: 21,
            sends: 0,
        },
        Shape {
            needs: &[1],
            gives: 1,
            guards: &[9],
            fire: 24,
            sends: 0,
        },
        Shape {
            needs: &[1],
            gives: 1,
            guards: &[13],
            fire: 27,
            sends: 0,
        },
    ],
    start: 0,
    kept: 0,
    saved: &[],
    ins: 1,
};

/// The guards at 0 and 4, the firings at 8, 13 and 20. Cell 0 is the count, cell 1 the level. First a pair is taken, then its
/// zeros and its level are sent.
pub(crate) const RUNS: Draft = Draft {
    instrs: &[
        Instr::Const(0),
        Instr::Load(0),
        Instr::Lt,
        Instr::Answer,
        Instr::Load(0),
        Instr::Const(0),
        Instr::Eq,
        Instr::Answer,
        Instr::Token(0, 0),
        Instr::Store(0, COUNT),
        Instr::Token(0, 1),
        Instr::Store(1, SHORT),
        Instr::Done,
        Instr::Load(0),
        Instr::Const(1),
        Instr::Sub,
        Instr::Store(0, COUNT),
        Instr::Const(0),
        Instr::Store(2, SHORT),
        Instr::Done,
        Instr::Load(1),
        Instr::Store(2, SHORT),
        Instr::Done,
    ],
    entries: &[0, 4, 8, 13, 20],
    cells: 3,
    actions: &[
        Shape {
            needs: &[2],
            gives: 0,
            guards: &[],
            fire: 8,
            sends: 2,
        },
        Shape {
            needs: &[0],
            gives: 1,
            guards: &[0],
            fire: 13,
            sends: 2,
        },
        Shape {
            needs: &[0],
            gives: 1,
            guards: &[4],
            fire: 20,
            sends: 2,
        },
    ],
    start: 0,
    kept: 2,
    saved: &[
        StateCell {
            cell: 0,
            kind: Scalar::Int(8),
        },
        StateCell {
            cell: 1,
            kind: Scalar::Int(16),
        },
    ],
    ins: 1,
};

/// The guards at 0 and 4, the firings at 8, 11 and 18. Cell 0 is the state variable. It reads in the first state, and counts
/// in the second.
pub(crate) const COUNTDOWN: Draft = Draft {
    instrs: &[
        Instr::Const(0),
        Instr::Load(0),
        Instr::Lt,
        Instr::Answer,
        Instr::Load(0),
        Instr::Const(0),
        Instr::Eq,
        Instr::Answer,
        Instr::Token(0, 0),
        Instr::Store(0, BYTE),
        Instr::Done,
        Instr::Load(0),
        Instr::Store(1, BYTE),
        Instr::Load(0),
        Instr::Const(1),
        Instr::Sub,
        Instr::Store(0, BYTE),
        Instr::Done,
        Instr::Done,
    ],
    entries: &[0, 4, 8, 11, 18],
    cells: 2,
    actions: &[
        Shape {
            needs: &[1],
            gives: 0,
            guards: &[],
            fire: 8,
            sends: 1,
        },
        Shape {
            needs: &[0],
            gives: 1,
            guards: &[0],
            fire: 11,
            sends: 1,
        },
        Shape {
            needs: &[0],
            gives: 0,
            guards: &[4],
            fire: 18,
            sends: 1,
        },
    ],
    start: 0,
    kept: 1,
    saved: &[StateCell {
        cell: 0,
        kind: Scalar::Uint(8),
    }],
    ins: 1,
};
