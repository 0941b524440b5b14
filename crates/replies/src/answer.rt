// What is answered to a message, by the two prices of its words.
ghost use Rattle.std.specs.Prelude.{◌≤◌};

// The two prices, and how long the form is that stands first in a list beside it.
#[derive(Clone, Copy)]
pub struct Answer {
    pub points: u32,
    pub worst: u16,
    pub length: usize,
    ghost short: { length ≤ 9984 },
}
