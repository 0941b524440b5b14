// Why a line of a listed shape is refused.
ghost use Rattle.std.specs.Prelude.{◌≡◌};
ghost use Rattle.sheets.specs.inner.Drafting.{refusal_of};
ghost use Rattle.sheets.specs.declared.refusals.Bar.TheVariants.{Limit};

use faults::Refusal;
use grammar::shelf::Full;

#[derive(Clone, Copy, PartialEq, Eq, Debug)]
pub enum Bar {
    Limit,
    Second,
}

impl From<Full> for Bar {
    ghost from_gives = { λ _ r. r ≡ Limit };

    fn from(_full: Full) -> Bar {
        Bar::Limit
    }
}

impl From<Bar> for Refusal {
    ghost from_gives = { λ b r. r ≡ refusal_of b };

    fn from(bar: Bar) -> Refusal {
        match bar {
            Bar::Limit => Refusal::LineLimit,
            Bar::Second => Refusal::SecondAlias,
        }
    }
}
