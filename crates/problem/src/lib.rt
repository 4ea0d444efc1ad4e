// Filing a problem.
#![tactic(auto)]

mod filing;

ghost use Rattle.std.specs.Prelude.{◌≡◌, []};
ghost use Rattle.problem.specs.Problem.{file_problem, told_of_filing};

use filing::Filing;
use hard::HardList;
use refusal::Refused;
use table::Lines;

// What a filing tells: the number of variables, and whether it is filed.
#[derive(Clone, Copy)]
pub struct Filed {
    pub variables: u32,
    pub answer: Result<(), Refused>,
}

// Files the problem that the bytes are: reads the records one after the other, up to the first that is refused, and folds what
// they bring into a table that holds no line, or adds it to a hard list that is empty. It is for the crates `checker` and
// `report`, which make both.
pub fn file_problem(bytes: &[u8], hard: &mut HardList, lines: &mut Lines) -> Filed
    requires { (hard.old ≡ []) × (lines.old ≡ []) }
    ensures { record { variables = result.variables; hard = hard.new; lines = lines.new; told = told_of_filing result.answer } ≡ file_problem bytes.now }
{
    let mut filing = Filing::new();
    let answer = filing.read(bytes, hard, lines);
    Filed {
        variables: filing.variables(),
        answer,
    }
}
