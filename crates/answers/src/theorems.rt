// What holds of every input, each on a function that only carries it.
ghost use Rattle.answers.specs.Input.{OneSplit, OneList};

// An input has one sheet and one rest.
pub fn an_input_is_split_in_one_way()
    ensures { OneSplit }
{}

// A rest has one list of messages.
pub fn a_rest_has_one_list_of_messages()
    ensures { OneList }
{}
