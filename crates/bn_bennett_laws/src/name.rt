//! The states of Bennett's reversible machine, by name.

/// A state of Bennett's reversible machine (Bennett 1973). Its run has three stages: it computes and records a
/// history, copies the output, and retraces its steps. States of the one-tape machine are counted from 0 here and
/// from 1 in printed names; quintuples are counted from 1 in both.
#[derive(Clone, Copy, PartialEq, Eq, Hash, Debug)]
pub enum Name {
    /// The one-tape machine's state in the compute stage. State j is printed `A` and j + 1.
    Compute(u32),
    /// Within a step by this quintuple in the compute stage: the symbol is written, the head has not moved, and the
    /// history's head is at the next blank. Quintuple m is printed `A`, m and `'`.
    ComputeWithin(u32),
    /// The next quadruple moves the heads of the work tape and the output tape right. Printed `B1'`.
    GoRight,
    /// The letter under the head of the work tape is about to be copied, unless it is the blank. Printed `B1`.
    CopyLetter,
    /// The next quadruple moves the heads of the work tape and the output tape left. Printed `B2'`.
    GoLeft,
    /// The letter under both heads is about to be passed, unless it is the blank. Printed `B2`.
    PassLetter,
    /// The one-tape machine's state in the retrace stage. State j is printed `C` and j + 1.
    Retrace(u32),
    /// Within a step by this quintuple in the retrace stage. Quintuple m is printed `C`, m and `'`.
    RetraceWithin(u32),
}
