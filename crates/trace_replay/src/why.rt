//! Why a text is no trace of a run.

/// What is wrong with the line that no run has, with the lines before it.
#[derive(Clone, Copy, Debug, PartialEq, Eq)]
pub enum Why {
    /// It isn't of the form of any line.
    Form,
    /// It isn't the first line, or the line of an instance, that is due; or it is one past its place.
    Header,
    /// The action that it names isn't exposed and enabled, and its guards don't trap; or there is none.
    NotExposed,
    /// The action lacks room on a link.
    NoRoom,
    /// The action traps; or a trap that the line names doesn't come.
    Trap,
    /// What the line says of the state isn't true.
    End,
    /// It stands behind an end line.
    After,
    /// It is lacking: the text ends without an end line.
    Cut,
    /// It passes the greatest length of a trace.
    TooLong,
}

/// Why a trace wasn't replayed.
#[derive(Clone, Copy, Debug, PartialEq, Eq)]
pub enum ReplayFault {
    /// No run has this line with the lines before it. Lines are counted from 1.
    NotRun { line: u64, why: Why },
    /// The feed couldn't be read. 0 is the trace.
    ReadFault { feed: u32 },
    /// Memory ran out.
    Memory,
}
