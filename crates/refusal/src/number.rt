// The refusals, and their numbers.
ghost use Rattle.std.specs.Prelude.{◌≡◌};
ghost use Rattle.refusal.specs.Number.{number, number_of};

// Why a call is refused.
#[derive(Clone, Copy, Debug, PartialEq, Eq)]
pub enum Refusal {
    Prime,
    Degree,
    Length,
    Word,
    Method,
    FirstModulus,
    SecondModulus,
    Congruence,
    TableLength,
    OutputLength,
    CardLength,
    Kind,
    Fill,
    Empty,
    NoPair,
    NotEmpty,
    Paired,
    LedgerFull,
    NoTable,
    TableOpen,
    WideCard,
    Polynomials,
}

impl From<Refusal> for u32 {
    ghost from_gives = { λ e n. n ≡ number e };

    fn from(refusal: Refusal) -> u32 {
        match refusal {
            Refusal::Prime => 1,
            Refusal::Degree => 2,
            Refusal::Length => 3,
            Refusal::Word => 4,
            Refusal::Method => 5,
            Refusal::FirstModulus => 6,
            Refusal::SecondModulus => 7,
            Refusal::Congruence => 8,
            Refusal::TableLength => 9,
            Refusal::OutputLength => 10,
            Refusal::CardLength => 11,
            Refusal::Kind => 12,
            Refusal::Fill => 13,
            Refusal::Empty => 21,
            Refusal::NoPair => 22,
            Refusal::NotEmpty => 23,
            Refusal::Paired => 24,
            Refusal::LedgerFull => 25,
            Refusal::NoTable => 26,
            Refusal::TableOpen => 27,
            Refusal::WideCard => 28,
            Refusal::Polynomials => 29,
        }
    }
}

// The number of a call's answer: 0 where it succeeds.
pub fn number_of(answer: Result<(), Refusal>) -> u32
    ensures { result ≡ number_of answer }
{
    match answer {
        Ok(()) => 0,
        Err(refusal) => refusal.into(),
    }
}
