// The kinds of cards, and how many words a card of each carries.
ghost use Rattle.std.specs.Prelude.{◌≡◌, ◌≢◌, ◌≤◌, MatchResult};
ghost use Rattle.refusal.specs.declared.number.Refusal.TheVariants as R;
ghost use Rattle.card.specs.Card.{word_count};
ghost use Rattle.card.specs.Kind.{kind_number};

use refusal::Refusal;

// A job carries T1 and T2, a pair card T1, T2, S and R.
#[derive(Clone, Copy, Debug, PartialEq, Eq)]
pub enum Kind {
    Job,
    Pair,
}

// Every kind but 1 and 2 is refused.
impl TryFrom<u32> for Kind {
    type Error = Refusal;

    ghost try_from_gives = { λ number r. MatchResult r (λ kind. kind_number kind ≡ number) (λ e. (e ≡ R.Kind) × (number ≢ 1) × (number ≢ 2)) };

    fn try_from(number: u32) -> Result<Kind, Refusal> {
        match number {
            1 => Ok(Kind::Job),
            2 => Ok(Kind::Pair),
            0 | 3.. => Err(Refusal::Kind),
        }
    }
}

impl From<Kind> for u32 {
    ghost from_gives = { λ kind number. number ≡ kind_number kind };

    fn from(kind: Kind) -> u32 {
        match kind {
            Kind::Job => 1,
            Kind::Pair => 2,
        }
    }
}

impl Kind {
    // How many words a card of this kind carries, where a list has n.
    pub fn word_count(self, n: u32) -> usize
        requires { n ≤ 16 }
        ensures { (result ≡ word_count n (kind_number self)) × (result ≤ 64) }
    {
        match self {
            Kind::Job => 2 * n as usize,
            Kind::Pair => 4 * n as usize,
        }
    }
}
