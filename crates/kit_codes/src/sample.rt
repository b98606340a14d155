//! Which actors there are.

use crate::codes::{
    ALT, COPY, COUNTDOWN, DIV, FSM, INC, INI, JOIN, LATE, PEEK, QUO, RACE, REP, RUNS, SAT, SUM,
    TWO, WIDE, ZIGZAG,
};
use crate::draft::Draft;

/// A small actor.
#[derive(Clone, Copy, Debug, PartialEq, Eq)]
pub enum Sample {
    /// One is added to each token.
    Inc,
    /// Each token is sent on.
    Copy,
    /// Tokens of 16 bits are sent on.
    Wide,
    /// Two tokens of one port are added.
    Sum,
    /// A token is divided by the next.
    Div,
    /// A token of each of two ports are added.
    Join,
    /// 128 is added to each token, and what isn't from 0 to 255 becomes the nearer of the two.
    Sat,
    /// Sixty-four tokens are sent in the order of a zigzag.
    Zigzag,
    /// Two pairs of tokens are sent, each the other way round.
    Rep,
    /// The first of two tokens is sent if the second is above 100.
    Peek,
    /// A token is taken if 100 divided by it is below 50.
    Quo,
    /// Two tokens are added, or one is sent on; the first action is above the second.
    Two,
    /// It fires once: a token is taken, or 1 is sent.
    Race,
    /// It takes two tokens of one port once. Then a token is divided by the next, as soon as the other port has two.
    Late,
    /// Tokens of two ports are sent in turn.
    Alt,
    /// Its `initialize` sends 9; then each token is sent on.
    Ini,
    /// A schedule of two states, with guards on the token.
    Fsm,
    /// Pairs of a count and a level: so many zeros, and then the level.
    Runs,
    /// It reads a token, then counts down from it: each number from the token to 1 is sent, and at 0 the next token is read.
    Countdown,
}

impl Sample {
    /// How it is made.
    pub(crate) fn draft(self) -> Draft {
        match self {
            Sample::Inc => INC,
            Sample::Copy => COPY,
            Sample::Wide => WIDE,
            Sample::Sum => SUM,
            Sample::Div => DIV,
            Sample::Join => JOIN,
            Sample::Sat => SAT,
            Sample::Zigzag => ZIGZAG,
            Sample::Rep => REP,
            Sample::Peek => PEEK,
            Sample::Quo => QUO,
            Sample::Two => TWO,
            Sample::Race => RACE,
            Sample::Late => LATE,
            Sample::Alt => ALT,
            Sample::Ini => INI,
            Sample::Fsm => FSM,
            Sample::Runs => RUNS,
            Sample::Countdown => COUNTDOWN,
        }
    }
}
