// Columns of prices, of which some are there.
ghost use Rattle.std.specs.Prelude.{◌≡◌, ℕ, ◌<◌, ◌≤◌, length};

// A price for each of N positions, if it is marked, in memory that the caller lends.
// No array of N options: tried, and not proved, since no proof knows how many bytes a price has and whether N of them fit.
#[derive(Drop)]
pub struct Column<'a, P, const N: usize> {
    pub prices: &'a mut [P],
    pub marks: [bool; N],
    ghost long: { N ≤ length prices.now },
}

impl<P: Copy, const N: usize> Column<'_, P, N> {
    ghost use Rattle.readings.specs.inner.Columns.{marked, Written};
    ghost use Rattle.readings.specs.Scales.{Scale};

    // The price at n, if it is marked.
    pub(crate) fn get(&self, n: usize) -> Option<P>
        requires { n < N }
        ensures { (S : Scale P) → result ≡ marked S self.now.prices.now self.now.marks n }
    {
        if self.marks[n] {
            Some(self.prices[n])
        } else {
            None
        }
    }

    // The price at n becomes p, marked if it is there.
    pub(crate) fn set(&mut self, n: usize, p: Option<P>)
        requires { n < N }
        ensures { (S : Scale P) → Written S self.old.prices.now self.old.marks self.new.prices.now self.new.marks n p }
    {
        match p {
            None => self.marks[n] = false,
            Some(q) => {
                self.prices[n] = q;
                self.marks[n] = true;
            }
        }
    }
}
