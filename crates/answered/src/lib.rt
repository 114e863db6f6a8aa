// Infer with a buffer of its own. Nothing calls it: its contract says that every table that is ready has an answer.
#![tactic(auto)]

ghost use Rattle.table.specs.Lists.{lists};
ghost use Rattle.table.specs.Ready.{Ready};
ghost use Rattle.answered.specs.Judgement.{HasJudgement};

use table::Table;

// The row that inference names, or 0.
pub fn judge(table: Table) -> usize
    requires { Ready table }
    ensures { HasJudgement (lists table) }
{
    let mut buffer = [0u8; inference::REPORT];
    match inference::infer(table, &mut buffer) {
        Ok(_) => 0,
        Err(refused) => refused.row,
    }
}
