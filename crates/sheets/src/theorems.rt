// What holds of every text, each on a function that only carries it.
ghost use Rattle.sheets.specs.Texts.{OneSheet, OneAnswer};

// A text means one sheet at most.
pub fn a_text_means_one_sheet()
    ensures { OneSheet }
{}

// The refusal given is the first: there is no other, and none where the text means a sheet.
pub fn the_refusal_given_is_the_first()
    ensures { OneAnswer }
{}
