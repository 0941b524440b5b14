// The table: of each name over each stretch a price, a rank and a rule.
// To be written, the table is lent whole, so a place in it comes as numbers; a `Stretch` is what is read. A name is below 32 by what its rule says.
ghost use Rattle.std.specs.Prelude.{◌≡◌, ℕ, ◌+◌, ◌-◌, ◌/◌, ◌%◌, ◌<◌, ◌≤◌};
ghost use Rattle.readings.specs.inner.Tables.{Adds};
ghost use Rattle.readings.specs.inner.Places.{place, tabled, table};
ghost use Rattle.readings.specs.Scales.{Scale};

use super::ground::{Lent, Stretch};

// Where the table has the name a over (i, j).
pub(crate) fn find_place(i: usize, j: usize, a: usize) -> usize
    requires { (i ≤ j) × (j ≤ 20) × (a < 32) }
    ensures { (result ≡ place i j a) × (result < 7392) }
{
    32 * (j * (j + 1) / 2 + i) + a
}

impl<P: Copy> Stretch<'_, P> {
    // The price of the name a over the stretch, if the table has one.
    pub(crate) fn price_of(&self, a: usize) -> Option<P>
        requires { a < 32 }
        ensures { (S : Scale P) → result ≡ (table S self.now.ground.now.prices.now self.now.ground.now.numbers.now).at self.now.i self.now.j a }
    {
        let at = find_place(self.i, self.j, a);
        if self.ground.numbers[at] == 0 {
            None
        } else {
            Some(self.ground.prices[at])
        }
    }

    // The rank of the name a over the stretch.
    pub(crate) fn rank_of(&self, a: usize) -> usize
        requires { a < 32 }
        ensures { result ≡ tabled self.now.ground.now.numbers.now self.now.i self.now.j a / 256 }
    {
        (self.ground.numbers[find_place(self.i, self.j, a)] / 256) as usize
    }

    // The rule of the name a over the stretch.
    pub(crate) fn rule_of(&self, a: usize) -> usize
        requires { a < 32 }
        ensures { result ≡ tabled self.now.ground.now.numbers.now self.now.i self.now.j a % 256 - 1 }
    {
        (self.ground.numbers[find_place(self.i, self.j, a)] % 256).saturating_sub(1) as usize
    }
}

impl<P: Copy> Lent<'_, P> {
    // The name a gets the price p over (i, j), by the rule r, as the k-th there.
    pub(crate) fn put(&mut self, i: usize, j: usize, a: usize, p: P, k: usize, r: usize)
        requires { (i ≤ j) × (j ≤ 20) × (a < 32) × (k < 32) × (r < 128) }
        ensures adds { (S : Scale P) → Adds (table S self.old.prices.now self.old.numbers.now) (table S self.new.prices.now self.new.numbers.now) i j a p k r }
        ensures words { self.new.words.now ≡ self.old.words.now }
    {
        let at = find_place(i, j, a);
        self.prices[at] = p;
        self.numbers[at] = (256 * k + (r + 1)) as u32;
    }
}
