// Runs `contents` on each case of the table on standard input, and says where it does another thing than the table.
#![tactic(auto)]

ghost use Rattle.std.specs.Prelude.{◌≡◌, IfOk};
ghost use Rattle.test_tables.specs.Lines.{Judges};
ghost use Rattle.contents_tests.specs.Agreement.{Agrees, HoldsIn};

mod answer;
mod trial;

use test_digits::bytes_of;
use test_tables::{Case, Tally, Verdict, judge, read_case, run_table};

// What is found of a case of the table; where it differs, prints its line's number.
fn run_case(rt: &HostRuntime, number: u64, case: Case<'_>) -> anyhow::Result<Verdict>
    ensures { IfOk result (λ v. (v ≡ Verdict.Agrees → Agrees case.entry.answer.now case.entry.input.now)) }
{
    let contents = bytes_of(rt.alloc(), case.input)?;
    if trial::agrees(rt.alloc(), case.answer, contents.as_slice())? {
        return Ok(Verdict::Agrees);
    }
    println!(rt; "differs: {number}")?;
    Ok(Verdict::Differs)
}

fn run_line(rt: &HostRuntime, number: u64, line: &str) -> anyhow::Result<Option<Verdict>>
    ensures { IfOk result (Judges HoldsIn line.now) }
{
    judge(
        rt,
        number,
        read_case(line),
        ": no case",
        |case| run_case(rt, number, case),
    )
}

fn main(rt: HostRuntime) -> anyhow::Result<()> {
    let Tally { cases, differ } = run_table(&rt, |number, line| run_line(&rt, number, line))?;
    println!(rt; "{cases} cases, {differ} differ")?;
    Ok(())
}
