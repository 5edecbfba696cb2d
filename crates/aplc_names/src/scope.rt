//! What a name is in a function.
//! It must not know where the name stands.

/// What a name is in a function of a program.
#[derive(Clone, Copy, Debug, PartialEq, Eq)]
pub enum Scope {
    /// The function of this number, counted from 0.
    Function(u32),
    /// A local variable.
    Local,
    /// A label of the line of this number, counted from 1.
    Label(i64),
    /// A global variable.
    Global,
}
