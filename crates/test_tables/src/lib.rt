// Tables of cases: what a line is, and a run over all of them.
#![tactic(auto)]

ghost use Rattle.std.specs.Prelude.{◌≡◌, ◌≢◌, ◌↔◌, ℕ, ◌+◌, ◌-◌, ◌^◌, ◌≤◌, min, IfOk, MatchOption, Ok, if◌then◌else◌};
ghost use Rattle.test_tables.specs.Lines.{Judged, Reads, cipher_name, passed_over};
ghost use Rattle.sheet_format.specs.declared.CipherKind.{CipherKind};

use sheet_format::CipherKind;
use std::io::{BufRead, BufReader};

// What was found of a case.
#[derive(Clone, Copy, PartialEq, Eq, Debug)]
pub enum Verdict {
    Agrees,
    Differs,
}

impl Verdict {
    // The verdict on a case that was found to agree, or not to.
    pub fn of(agrees: bool) -> Verdict
        ensures { result ≡ (if agrees then Verdict.Agrees else Verdict.Differs) }
    {
        if agrees {
            Verdict::Agrees
        } else {
            Verdict::Differs
        }
    }

    // The verdict on two cases together: they agree only if both do.
    pub fn and(self, other: Verdict) -> Verdict
        ensures { result ≡ Verdict.Agrees ↔ (self ≡ Verdict.Agrees) × (other ≡ Verdict.Agrees) }
    {
        match self {
            Verdict::Agrees => other,
            Verdict::Differs => Verdict::Differs,
        }
    }
}

// A line that is no case of its table.
#[derive(Clone, Copy, PartialEq, Eq, Debug)]
pub struct NoCase;

// A case of a table whose lines are `ANSWER | INPUT`.
#[derive(Clone, Copy)]
pub struct Case<'a> {
    pub answer: &'a str,
    pub input: &'a str,
}

// Whether a line is empty or begins with `#`.
pub fn is_comment(line: &str) -> bool
    ensures { result ≡ passed_over line.now }
{
    matches!(line.as_bytes(), [] | [b'#', ..])
}

// The case that stands in a line, if it is no comment.
#[tactic(auto, using(std::proofs::lemmas::Str::Pattern::split_text_parts))]
pub fn read_case<'a>(line: &'a str) -> Result<Option<Case<'a>>, NoCase>
    ensures { Reads line.now result }
{
    if is_comment(line) {
        return Ok(None);
    }
    match line.split_once(" | ") {
        Some((answer, input)) => Ok(Some(Case { answer, input })),
        None => Err(NoCase),
    }
}

// The cipher of that name.
pub fn read_cipher(name: &str) -> Option<CipherKind>
    ensures { MatchOption result ((c : CipherKind) → name.now ≢ cipher_name c) (λ c. name.now ≡ cipher_name c) }
{
    match name {
        "kuz" => Some(CipherKind::Kuznyechik),
        "magma" => Some(CipherKind::Magma),
        _ => None,
    }
}

// How many cases were run, and how many of them differ.
#[derive(Drop)]
pub struct Tally {
    pub cases: u64,
    pub differ: u64,
    ghost fewer: { differ ≤ cases },
}

impl Tally {
    // The tally before the first case.
    fn new() -> Tally
        ensures { (result.cases ≡ 0) × (result.differ ≡ 0) }
    {
        Tally {
            cases: 0,
            differ: 0,
        }
    }

    fn count(&mut self, verdict: Verdict)
        ensures cases { self.new.cases ≡ min (self.old.cases + 1) (2 ^ 64 - 1) }
        ensures agrees { verdict ≡ Verdict.Agrees → self.new.differ ≡ self.old.differ }
        ensures differs { verdict ≡ Verdict.Differs → self.new.differ ≡ min (self.old.differ + 1) (2 ^ 64 - 1) }
    {
        self.cases = self.cases.saturating_add(1);
        if verdict == Verdict::Differs {
            self.differ = self.differ.saturating_add(1);
        }
    }
}

// What is found of a line that was read: a case is run, and a line that is none differs, which is printed.
pub fn judge<T, F: FnOnce(T) -> anyhow::Result<Verdict>>(
    rt: &HostRuntime,
    number: u64,
    entry: Result<Option<T>, NoCase>,
    no_case: &str,
    run: F,
) -> anyhow::Result<Option<Verdict>>
    requires { F.IsAlwaysCallable run }
    ensures { IfOk result (Judged (λ c v. F.post run c (Ok v)) entry) }
{
    match entry {
        Ok(None) => Ok(None),
        Ok(Some(case)) => Ok(Some(run(case)?)),
        Err(NoCase) => {
            println!(rt; "differs: {number}{no_case}")?;
            Ok(Some(Verdict::Differs))
        }
    }
}

// Runs each line of the table on standard input, with its number. A comment has no verdict. How a line is read, and what is printed
// of it, is the program's.
pub fn run_table<F: FnMut(u64, &str) -> anyhow::Result<Option<Verdict>>>(
    rt: &HostRuntime,
    mut run: F,
) -> anyhow::Result<Tally>
    requires { F.IsAlwaysCallable run }
    ensures { IfOk result (λ t. t.differ ≤ t.cases) }
{
    let mut tally = Tally::new();
    let mut number: u64 = 0;
    for line in BufReader::new(rt.alloc(), rt.stdin())?.lines(rt.alloc()) {
        let line = line?;
        number = number.saturating_add(1);
        if let Some(verdict) = run(number, line.as_str())? {
            tally.count(verdict);
        }
    }
    Ok(tally)
}
