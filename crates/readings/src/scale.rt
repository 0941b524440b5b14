// Scales: what prices are, how they join and which is no dearer.
ghost use Rattle.std.specs.Prelude.{◌≡◌};
ghost use Rattle.readings.specs.Scales.{Scale as Measure, Laws, points, worst, plain};
ghost use Rattle.readings.specs.Laws.{points_laws, worst_laws, plain_laws};

// A scale of prices.
pub trait Scale {
    type Price: Copy;

    ghost measure: { Measure Self.Price };

    fn unit() -> Self::Price
        ensures { result ≡ measure.unit };

    fn weigh(weight: u16) -> Self::Price
        ensures { result ≡ measure.weigh weight };

    fn join(a: Self::Price, b: Self::Price) -> Self::Price
        ensures { result ≡ measure.join a b };

    fn no_dearer(a: Self::Price, b: Self::Price) -> bool
        ensures { result ≡ measure.no_dearer a b };

    ghost lawful: { Laws measure };
}

// A sum that stops at the largest number.
pub struct Points;

impl Scale for Points {
    type Price = u32;

    ghost measure = { points };

    ghost lawful = { points_laws };

    fn unit() -> u32 {
        0
    }

    fn weigh(weight: u16) -> u32 {
        u32::from(weight)
    }

    fn join(a: u32, b: u32) -> u32 {
        a.saturating_add(b)
    }

    fn no_dearer(a: u32, b: u32) -> bool {
        a <= b
    }
}

// The greatest weight.
pub struct Worst;

impl Scale for Worst {
    type Price = u16;

    ghost measure = { worst };

    ghost lawful = { worst_laws };

    fn unit() -> u16 {
        0
    }

    fn weigh(weight: u16) -> u16 {
        weight
    }

    fn join(a: u16, b: u16) -> u16 {
        a.max(b)
    }

    fn no_dearer(a: u16, b: u16) -> bool {
        a <= b
    }
}

// The one price of the plain scale.
#[derive(Clone, Copy)]
pub struct One;

pub struct Plain;

impl Scale for Plain {
    type Price = One;

    ghost measure = { plain };

    ghost lawful = { plain_laws };

    fn unit() -> One {
        One
    }

    fn weigh(_weight: u16) -> One {
        One
    }

    fn join(_a: One, _b: One) -> One {
        One
    }

    fn no_dearer(_a: One, _b: One) -> bool {
        true
    }
}
