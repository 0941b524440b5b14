// What the table is proved by: each function's contract is a theorem.
ghost use Rattle.tables.specs.Theorems.{ColumnsAreExact, OffersAreShown, CommandsAreComplete, NamesFollowByContext, ColumnsKeep};

pub fn columns_are_exact()
    ensures { ColumnsAreExact }
{}

pub fn offers_are_shown()
    ensures { OffersAreShown }
{}

pub fn commands_are_complete()
    ensures { CommandsAreComplete }
{}

pub fn a_name_follows_by_its_left_context()
    ensures { NamesFollowByContext }
{}

// What lets the crate above go from one row of words to the next.
pub fn columns_keep_under_other_words()
    ensures { ColumnsKeep }
{}
