// What was worked out on paper, proved of the definitions.
#![tactic(auto)]

ghost use Rattle.std.specs.Prelude.{◌≡◌};
ghost use Rattle.worked.specs.Cases.{Worked};
ghost use Rattle.worked.specs.Findings.{lathe_sheet};
ghost use Rattle.worked.specs.Lathe.{HoldTheLathe};
ghost use Rattle.worked.specs.Written.{text_of, TextsMean};

use grammar::sheet::Sheet;
use sheets::load::load;

const LATHE: &[u8] =
    b"rule\t0\tGo\thold\tOpt\tTool\nrule\t0\tOpt\nrule\t1\tOpt\tthe\nrule\t2\tOpt\tOpt\nrule\t0\tTool\tlathe\nrule\t3\tTool\tOpt\tlathe\n";

// The definitions find what was found on paper: ten messages on two sheets.
pub fn the_worked_cases_hold()
    ensures { Worked }
{}

// The texts of the two sheets mean exactly the sheets of the cases.
pub fn the_texts_mean_the_sheets()
    ensures { TextsMean }
{}

fn lathe_text() -> &'static [u8]
    ensures { result.now ≡ text_of lathe_sheet }
{
    LATHE
}

// The hold-the-lathe sheet, loaded: so there is a sheet that the cases speak of.
pub fn hold_the_lathe() -> Sheet
    ensures { HoldTheLathe result }
{
    let mut sheet = Sheet::blank();
    let _ = load(lathe_text(), &mut sheet);
    sheet
}
