// The two texts of the engine: their definitions, and a function for each law about them.
#![tactic(auto)]

ghost use Rattle.texts.specs.CaseFaults.{OneAnswer as OneCaseAnswer};
ghost use Rattle.texts.specs.CaseText.{OneCase};
ghost use Rattle.texts.specs.Example.{ExampleText};
ghost use Rattle.texts.specs.NetFaults.{OneAnswer};
ghost use Rattle.texts.specs.NetText.{OneNet};

pub mod limits;

pub fn example_has_its_text()
    ensures the_example_is_written_as_these_bytes { ExampleText }
{}

pub fn net_texts_tell_one_net()
    ensures equal_texts_have_equal_nets_and_names { OneNet }
{}

pub fn net_texts_have_one_answer()
    ensures every_text_is_a_net_text_or_has_one_first_fault { OneAnswer }
{}

pub fn case_texts_tell_one_case()
    ensures equal_texts_have_equal_wheels_names_and_runs { OneCase }
{}

pub fn case_texts_have_one_answer()
    ensures every_text_is_a_case_text_or_has_one_first_fault { OneCaseAnswer }
{}
