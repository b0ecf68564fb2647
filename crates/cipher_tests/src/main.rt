// Runs the block ciphers on each vector of the table on standard input, both ways, and says where they do another thing than the table.
#![tactic(auto)]

ghost use Rattle.std.specs.Prelude.{◌≡◌, ◌↔◌, true, IfOk};
ghost use Rattle.block.specs.Blocks.{Meaning, Same};
ghost use Rattle.test_tables.specs.Lines.{Judges};
ghost use Rattle.cipher_tests.specs.Agreement.{Agrees, Holds, HoldsIn};

mod table;
mod trial;

use block::BlockCipher;
use kuznyechik::Kuznyechik;
use kuznyechik_tables::KuznyechikTables;
use magma::Magma;
use sheet_format::CipherKind;
use table::Vector;
use test_digits::key_of;
use test_tables::{Tally, Verdict, judge, run_table};
use trial::Trial;

// The verdict of a trial; prints each difference that it shows.
fn report(rt: &HostRuntime, number: u64, name: &str, trial: Trial) -> anyhow::Result<Verdict>
    ensures { IfOk result (λ v. (v ≡ Verdict.Agrees ↔ (trial.enciphers ≡ true) × (trial.deciphers ≡ true))) }
{
    if !trial.enciphers {
        println!(rt; "differs: {number}: {name} enciphers to another block")?;
    }
    if !trial.deciphers {
        println!(rt; "differs: {number}: {name} deciphers to another block")?;
    }
    Ok(Verdict::of(trial.enciphers && trial.deciphers))
}

// What is found of a cipher on a vector, and so of each that means the same.
fn run_cipher<C: BlockCipher>(
    rt: &HostRuntime,
    number: u64,
    name: &str,
    cipher: &mut C,
    vector: Vector<'_>,
) -> anyhow::Result<Verdict>
    ensures { IfOk result (λ v. (v ≡ Verdict.Agrees → (m : Meaning) → Same (C.BlockCipher.meaning cipher.old) m → Agrees m vector.entry)) }
{
    let trial = trial::both_ways(rt.alloc(), cipher, vector)?;
    report(rt, number, name, trial)
}

// Runs the vector's cipher on it: Kuznyechik plain and by tables, or Magma.
fn run_vector(rt: &HostRuntime, number: u64, vector: Vector<'_>) -> anyhow::Result<Verdict>
    ensures { IfOk result (λ v. (v ≡ Verdict.Agrees → Holds vector.entry)) }
{
    let key = key_of(rt.alloc(), vector.key)?;
    match vector.cipher {
        CipherKind::Kuznyechik => {
            let mut plain = Kuznyechik::prepare(&key);
            let mut tables = KuznyechikTables::prepare(&key);
            let verdict = run_cipher(rt, number, "Kuznyechik", &mut plain, vector)?;
            let tables = run_cipher(rt, number, "Kuznyechik by tables", &mut tables, vector)?;
            Ok(verdict.and(tables))
        }
        CipherKind::Magma => { run_cipher(rt, number, "Magma", &mut Magma::prepare(&key), vector) }
    }
}

fn run_line(rt: &HostRuntime, number: u64, line: &str) -> anyhow::Result<Option<Verdict>>
    ensures { IfOk result (Judges HoldsIn line.now) }
{
    judge(
        rt,
        number,
        table::read_entry(line),
        ": no vector",
        |vector| run_vector(rt, number, vector),
    )
}

fn main(rt: HostRuntime) -> anyhow::Result<()> {
    let Tally { cases, differ } = run_table(&rt, |number, line| run_line(&rt, number, line))?;
    println!(rt; "{cases} vectors, {differ} differ")?;
    Ok(())
}
