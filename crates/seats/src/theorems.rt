// What follows from the definitions alone: each function's contract is a theorem.
ghost use Rattle.seats.specs.Seats.{OneRecord};
ghost use Rattle.seats.specs.Standing.{OneList};
ghost use Rattle.seats.specs.Calls.{OfferAgrees};

// Two seats that hold the same words hold the same numbers.
pub fn the_same_words_are_the_same_numbers()
    ensures { OneRecord }
{}

// The calls alone settle the words that stand at a seat.
pub fn the_words_standing_are_one_list()
    ensures { OneList }
{}

// Of the words on the sheet, with room left, exactly those that are not offered lead nowhere.
pub fn a_word_is_refused_exactly_where_it_is_not_offered()
    ensures { OfferAgrees }
{}
