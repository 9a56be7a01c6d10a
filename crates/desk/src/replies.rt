// What the desk answers to a field.
ghost use Rattle.std.specs.Prelude.{◌≡◌, Some};
ghost use Rattle.desk.specs.Replies.{outcome_number, outcome_figures, outcome_text};

use margin::Figures;
use register::RegisterFault;
use std::fmt;

// Of a field that is accepted, the figures where it asked for them.
pub type Answer = Result<Option<Figures>, RegisterFault>;

// The tag of a field, and its answer.
#[derive(Clone, Copy, Debug, PartialEq, Eq)]
pub struct Outcome {
    pub tag: u8,
    pub answer: Answer,
}

impl Outcome {
    // 0 where the field is accepted, else the number of the refusal.
    pub fn number(&self) -> u8
        ensures { result ≡ outcome_number self.now }
    {
        self.answer.err().map_or(0, |fault| fault.number())
    }

    // The figures that the field asked for.
    pub fn figures(&self) -> Option<Figures>
        ensures { result ≡ outcome_figures self.now }
    {
        self.answer.ok().flatten()
    }
}

// The tag in base 16, the number of the answer, and the figures that the field asked for.
impl fmt::Display for Outcome {
    ghost output = { λ o. Some (outcome_text o) };

    fn fmt<W: fmt::Write>(&self, f: &mut fmt::Formatter<W>) -> fmt::Result {
        let tag = self.tag;
        let number = self.number();
        match self.figures() {
            Some(figures) => write!(f, "{tag:02x} {number} {figures}"),
            None => write!(f, "{tag:02x} {number}"),
        }
    }
}
