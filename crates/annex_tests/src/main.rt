// Runs our functions on each value of the standard's examples, in the table on standard input, and says where they make another.
#![tactic(auto)]

ghost use Rattle.std.specs.Prelude.{◌≡◌, IfOk};
ghost use Rattle.test_tables.specs.Lines.{Judges};
ghost use Rattle.annex_tests.specs.Agreement.{Holds, HoldsIn};

mod steps;
mod table;

use table::Value;
use test_digits::bytes_of;
use test_tables::{Tally, Verdict, judge, run_table};

// Whether our function makes the output of the example; if not, says so.
fn run_example(rt: &HostRuntime, number: u64, value: Value<'_>) -> anyhow::Result<Verdict>
    ensures { IfOk result (λ v. (v ≡ Verdict.Agrees → Holds value.entry)) }
{
    let input = bytes_of(rt.alloc(), value.input)?;
    let output = bytes_of(rt.alloc(), value.output)?;
    if steps::agrees(value.step, input.as_slice(), output.as_slice()) {
        return Ok(Verdict::Agrees);
    }
    println!(rt; "differs: {number}")?;
    Ok(Verdict::Differs)
}

fn run_line(rt: &HostRuntime, number: u64, line: &str) -> anyhow::Result<Option<Verdict>>
    ensures { IfOk result (Judges HoldsIn line.now) }
{
    judge(
        rt,
        number,
        table::read_entry(line),
        ": no value",
        |value| run_example(rt, number, value),
    )
}

fn main(rt: HostRuntime) -> anyhow::Result<()> {
    let Tally { cases, differ } = run_table(&rt, |number, line| run_line(&rt, number, line))?;
    println!(rt; "{cases} values, {differ} differ")?;
    Ok(())
}
