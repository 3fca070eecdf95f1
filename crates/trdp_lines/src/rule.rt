//! The rule of a path: how many connections have a seat there, and whether an end is handed in.

ghost use Rattle.std.specs.Prelude.{◌≡◌, ◌&&◌};
ghost use Rattle.trdp_lines.specs.Seats.{counts_ends, seats_at};

/// Whose connections come in at a path.
#[derive(Clone, Copy, Debug, PartialEq, Eq)]
pub enum Rule {
    /// Those of a slot's application: one speaks, from its first line on until it ends, and its end
    /// is handed in. One more may wait.
    Application,
    /// Those of operators: up to four at once, whose ends hand in nothing. None waits.
    Operators,
}

impl Rule {
    /// How many connections have a seat at once, at most.
    pub(crate) fn seats(self) -> usize
        ensures { result ≡ seats_at self }
    {
        match self {
            Rule::Application => 1,
            Rule::Operators => 4,
        }
    }

    /// Whether the end of a connection is handed in that has spoken, or hasn't.
    pub(crate) fn counts_end(self, spoke: bool) -> bool
        ensures { result ≡ (counts_ends self && spoke) }
    {
        match self {
            Rule::Application => spoke,
            Rule::Operators => false,
        }
    }
}

/// The rule of a path, as a type.
pub trait Policy {
    ghost use Rattle.trdp_lines.specs.declared.rule.Rule.{Rule};

    /// The rule.
    ghost rule: { Rule };

    /// The rule.
    fn rule() -> Rule
        ensures { result ≡ rule };
}

/// One application at a time: [`Rule::Application`].
#[derive(Clone, Copy, Debug, PartialEq, Eq)]
pub struct ForApplication;

/// Up to four operators: [`Rule::Operators`].
#[derive(Clone, Copy, Debug, PartialEq, Eq)]
pub struct ForOperators;

impl Policy for ForApplication {
    ghost use Rattle.trdp_lines.specs.declared.rule.Rule.TheVariants.{Application};

    ghost rule = { Application };

    fn rule() -> Rule {
        Rule::Application
    }
}

impl Policy for ForOperators {
    ghost use Rattle.trdp_lines.specs.declared.rule.Rule.TheVariants.{Operators};

    ghost rule = { Operators };

    fn rule() -> Rule {
        Rule::Operators
    }
}
