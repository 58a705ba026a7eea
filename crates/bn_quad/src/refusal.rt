//! Why quadruples are not a machine, and why a machine is not uniform.

/// Why quadruples are not a machine.
#[derive(Clone, Copy, PartialEq, Eq, Debug)]
pub enum QuadRefusal {
    /// There is no quadruple.
    Empty,
    /// Quadruple `i`, counted from 1, is the first faulty one, and one of its states or symbols is out of range.
    Range { i: u32 },
    /// Quadruple `i`, counted from 1, is the first faulty one. All its numbers are in range, but it shifts a tape that
    /// it reads, or writes one that it doesn't read.
    Mixed { i: u32 },
}

/// Why a machine is not uniform (this project's own profile): the first of five conditions, in this order, that fails.
/// Quadruples are counted from 1. A pair is the least `i` that fails the condition with a later one, and the least such
/// `j`. A single quadruple is the least that fails it.
#[derive(Clone, Copy, PartialEq, Eq, Debug)]
pub enum NotUniform {
    /// Quadruples `i` and `j` have the same state and read different tapes.
    ReadMask { i: u32, j: u32 },
    /// Quadruples `i` and `j` have the same next state and write different tapes.
    WriteMask { i: u32, j: u32 },
    /// Quadruple `i` reads no tape and shifts none left or right.
    Silent { i: u32 },
    /// Quadruple `i` leads to the initial state.
    InitialEntered { i: u32 },
    /// Quadruple `i` leaves the final state.
    FinalLeft { i: u32 },
}

/// Why a machine is not deterministic, reversible and uniform: the first of the three, in this order, that fails.
#[derive(Clone, Copy, PartialEq, Eq, Debug)]
pub enum UniformRefusal {
    /// These two quadruples, counted from 1, overlap in domain: the least pair.
    Domain(u32, u32),
    /// These two quadruples, counted from 1, overlap in range: the least pair.
    Range(u32, u32),
    /// The machine is not uniform.
    Mask(NotUniform),
}
