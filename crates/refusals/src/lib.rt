// Why a call was refused, and at which place: what every call hands back where it cannot answer.
#![tactic(auto)]

ghost use Rattle.std.specs.Prelude.{◌≡◌};
ghost use Rattle.refusals.specs.Number.{number_of};

// The reasons, by the numbers that a user sees.
#[derive(Clone, Copy, Debug, PartialEq, Eq)]
pub enum Why {
    Cut = 1,
    Long = 2,
    Range = 3,
    Tail = 4,
    Loop = 5,
    Flat = 6,
    Unknown = 7,
    Room = 8,
    Span = 9,
    Name = 10,
}

impl Why {
    pub fn at(self, place: usize) -> Refusal
        ensures { result ≡ record { why = self; place = place } }
    {
        Refusal { why: self, place }
    }

    pub fn number(self) -> u32
        ensures { result ≡ number_of self }
    {
        self as u32
    }
}

#[derive(Clone, Copy, Debug, PartialEq, Eq)]
pub struct Refusal {
    pub why: Why,
    pub place: usize,
}
