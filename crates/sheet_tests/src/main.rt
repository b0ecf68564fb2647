// Runs `sheet::check` on each sheet of the table on standard input, and says where it answers another thing than the table.
#![tactic(auto)]

ghost use Rattle.std.specs.Prelude.{◌≡◌, IfOk};
ghost use Rattle.test_tables.specs.Lines.{Judges};
ghost use Rattle.sheet_tests.specs.Agreement.{Agrees, HoldsIn};

mod answer;
mod escape;
mod trial;

use test_tables::{Case, Tally, Verdict, judge, read_case, run_table};

// What is found of a case of the table; prints where it differs.
fn run_case(rt: &HostRuntime, number: u64, case: Case<'_>) -> anyhow::Result<Verdict>
    ensures { IfOk result (λ v. (v ≡ Verdict.Agrees → Agrees case.entry.answer.now case.entry.input.now)) }
{
    let sheet = escape::unescape(rt.alloc(), case.input.as_bytes())?;
    match trial::first_difference(rt.alloc(), case.answer, sheet.as_slice())? {
        Some(difference) => {
            println!(rt; "differs: {number} got {difference}")?;
            Ok(Verdict::Differs)
        }
        None => Ok(Verdict::Agrees),
    }
}

fn run_line(rt: &HostRuntime, number: u64, line: &str) -> anyhow::Result<Option<Verdict>>
    ensures { IfOk result (Judges HoldsIn line.now) }
{
    judge(
        rt,
        number,
        read_case(line),
        " got no case",
        |case| run_case(rt, number, case),
    )
}

fn main(rt: HostRuntime) -> anyhow::Result<()> {
    let Tally { cases, differ } = run_table(&rt, |number, line| run_line(&rt, number, line))?;
    println!(rt; "{cases} cases, {differ} differ")?;
    Ok(())
}
