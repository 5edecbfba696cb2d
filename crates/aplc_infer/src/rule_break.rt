//! Why a typing rule refuses a node.
//! It must not know which node it is.

ghost use Rattle.std.specs.Prelude.{◌≡◌};
ghost use Rattle.aplc_infer.specs.Rules.{number_of};

/// What a node breaks.
#[derive(Clone, Copy, Debug, PartialEq, Eq)]
pub enum RuleBreak {
    /// A kind that is not taken, or a mixed one.
    Kind,
    /// A rank that is not taken or above eight, or a mixed one.
    Rank,
    /// A reshape to a rank that is not known.
    Reshape,
    /// A transposition by anything but numbers that stand in the source.
    Transpose,
    /// A declared name is given what its declaration does not allow.
    Declared,
    /// An axis that the argument has not.
    Axis,
}

impl RuleBreak {
    /// The number of the refusal.
    pub fn number(self) -> u8
        ensures { result ≡ number_of self }
    {
        match self {
            RuleBreak::Kind => 17,
            RuleBreak::Rank => 18,
            RuleBreak::Reshape => 19,
            RuleBreak::Transpose => 20,
            RuleBreak::Declared => 21,
            RuleBreak::Axis => 22,
        }
    }
}
