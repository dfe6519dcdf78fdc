// The three kinds of variable (SCOPE.md, 'Term bytes'). A stored number and a question number meet only as written.
#![tactic(auto)]

ghost use Rattle.std.specs.Prelude.{◌≡◌, ◌+◌, ◌≤◌, ◌<◌};
ghost use Rattle.variables.specs.Sides.{StandsFor, OfItem};
ghost use Rattle.laws.specs.Sizes.{variable_base, variable_end, written_end};

use laws::{VARIABLE, VARIABLE16};

// A variable of one side, 0 to 31, and how far it is moved where both sides appear in one written term.
#[derive(Debug, Clone, Copy, PartialEq, Eq)]
pub struct OwnVariable<const BANK: u8>(pub u8);

// A variable of a stored term.
pub type StoredVariable = OwnVariable<0>;

// A variable of a question.
pub type QuestionVariable = OwnVariable<32>;

// A variable where both sides appear in one written term, 0 to 63.
#[derive(Debug, Clone, Copy, PartialEq, Eq)]
pub struct WrittenVariable(pub u8);

// Whose variables a term has.
#[derive(Debug, Clone, Copy, PartialEq, Eq)]
pub enum Bank {
    Stored,
    Question,
}

// The variable that a written one stands for.
#[derive(Debug, Clone, Copy, PartialEq, Eq)]
pub enum Side {
    Stored(StoredVariable),
    Question(QuestionVariable),
}

impl<const BANK: u8> OwnVariable<BANK> {
    // The variable of an item of its side's terms.
    pub fn of_item(c: u16) -> Self
        requires { (variable_base ≤ c) × (c < variable_end) }
        ensures { OfItem 32 c result.0 }
    {
        Self((c - VARIABLE16) as u8)
    }

    // As written: moved by its bank, so that the two sides are apart.
    pub fn written(self) -> WrittenVariable
        requires { (self.0 < 32) × (BANK ≤ 32) }
        ensures { result.0 ≡ BANK + self.entry.0 }
    {
        WrittenVariable(BANK + self.0)
    }
}

impl WrittenVariable {
    // The variable of an item of a written term.
    pub fn of_item(c: usize) -> Self
        requires { (variable_base ≤ c) × (c < written_end) }
        ensures { OfItem 64 c result.0 }
    {
        Self((c - VARIABLE) as u8)
    }

    // Its index in a table of all written variables.
    pub fn index(self) -> usize
        ensures { result ≡ self.0 }
    {
        usize::from(self.0)
    }

    // Its item.
    pub fn item(self) -> u16
        ensures { result ≡ variable_base + self.0 }
    {
        VARIABLE16 + u16::from(self.0)
    }

    // Back to the side that it comes from.
    pub fn side(self) -> Side
        requires { self.0 < 64 }
        ensures { StandsFor self.0 result }
    {
        if self.0 < 32 {
            Side::Stored(OwnVariable(self.0))
        } else {
            Side::Question(OwnVariable(self.0 - 32))
        }
    }
}
