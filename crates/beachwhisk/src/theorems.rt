// Why it does no harm that each call loads the sheet anew; each on a function that only carries it.
ghost use Rattle.beachwhisk.specs.Calls.{OneHall, OneHearing};

// What earlier calls with a text left, a later call with it takes up.
pub fn the_sheets_of_a_text_keep_the_same_halls()
    ensures { OneHall }
{}

// A message means the same on each.
pub fn the_sheets_of_a_text_hear_the_same()
    ensures { OneHearing }
{}
