// Frames of the walk, and the numbers that they are on its stack, which lies in memory that the caller lends.
ghost use Rattle.std.specs.Prelude.{◌≡◌, ◌<◌};

// A frame of the walk: the name a over (i, j), of whose rule d symbols are written, up to m.
#[derive(Clone, Copy)]
pub struct Spot {
    pub i: usize,
    pub j: usize,
    pub a: usize,
    pub d: usize,
    pub m: usize,
    ghost fits: { (i < 4096) × (j < 32) × (a < 32) × (d < 32) × (m < 32) },
}

// A frame as one number.
impl From<Spot> for u32 {
    ghost use Rattle.readings.specs.inner.Spots.{Packs};

    ghost from_gives = { Packs };

    fn from(spot: Spot) -> u32 {
        let Spot { i, j, a, d, m } = spot;
        ((((i * 32 + j) * 32 + a) * 32 + d) * 32 + m) as u32
    }
}

// The frame that the number holds.
impl From<u32> for Spot {
    ghost use Rattle.readings.specs.inner.Spots.{Unpacks};

    ghost from_gives = { Unpacks };

    fn from(number: u32) -> Spot {
        let v = number as usize;
        Spot {
            i: v / 1048576,
            j: v / 32768 % 32,
            a: v / 1024 % 32,
            d: v / 32 % 32,
            m: v % 32,
        }
    }
}
