// Runs ctr, cbc and the MAC on each vector of the table on standard input, cut into pieces as the vector says, and says where they
// do another thing than the table.
#![tactic(auto)]

ghost use Rattle.std.specs.Prelude.{◌≡◌, ◌↔◌, IfOk};
ghost use Rattle.test_tables.specs.Lines.{Judges};
ghost use Rattle.mode_tests.specs.Agreement.{AllMac, AllSealed, Holds, HoldsIn, HoldsMac, HoldsSealed};

mod cbc_runs;
mod ctr_runs;
mod inputs;
mod macs;
mod pieces;
mod table;
mod tagged;
mod trial;

use kuznyechik::Kuznyechik;
use kuznyechik_tables::KuznyechikTables;
use magma::Magma;
use sheet_format::CipherKind;
use table::{MacVector, SealedVector, Vector};
use test_digits::key_of;
use test_tables::{Tally, Verdict, judge, run_table};
use trial::{MacTrial, SealedTrial, try_mac, try_sealed};

// The verdict of a trial; prints each difference that it shows.
fn report_sealed(
    rt: &HostRuntime,
    number: u64,
    name: &str,
    trial: SealedTrial,
) -> anyhow::Result<Verdict>
    ensures { IfOk result (λ v. (v ≡ Verdict.Agrees ↔ AllSealed trial)) }
{
    if !trial.seals {
        println!(rt; "differs: {number}: {name} seals to another text")?;
    }
    if !trial.tags {
        println!(rt; "differs: {number}: {name} has another tag")?;
    }
    if !trial.opens {
        println!(rt; "differs: {number}: {name} opens to another text")?;
    }
    Ok(Verdict::of(trial.seals && trial.tags && trial.opens))
}

// The same of a MAC.
fn report_mac(rt: &HostRuntime, number: u64, name: &str, trial: MacTrial) -> anyhow::Result<Verdict>
    ensures { IfOk result (λ v. (v ≡ Verdict.Agrees ↔ AllMac trial)) }
{
    if !trial.first {
        println!(rt; "differs: {number}: {name} makes another MAC")?;
    }
    if !trial.other {
        println!(rt; "differs: {number}: {name} makes another MAC in other pieces")?;
    }
    Ok(Verdict::of(trial.first && trial.other))
}

// Kuznyechik, plain and by tables, with the tag by Magma; or Magma, with the tag by Kuznyechik by tables. All ciphers are tried before
// a difference is printed.
fn run_sealed_vector(
    rt: &HostRuntime,
    number: u64,
    vector: SealedVector<'_>,
) -> anyhow::Result<Verdict>
    ensures { IfOk result (λ v. (v ≡ Verdict.Agrees → HoldsSealed vector.entry)) }
{
    let heap = rt.alloc();
    let input = inputs::sealed_input(heap, vector)?;
    let key = key_of(heap, vector.key)?;
    let tag_key = key_of(heap, vector.tag_key)?;
    match vector.cipher {
        CipherKind::Kuznyechik => {
            let mut tables = KuznyechikTables::prepare(&key);
            let mut tag = Magma::prepare(&tag_key);
            let tables = try_sealed(heap, vector.mode, &mut tables, &mut tag, &input)?;
            let mut plain = Kuznyechik::prepare(&key);
            let mut tag = Magma::prepare(&tag_key);
            let plain = try_sealed(heap, vector.mode, &mut plain, &mut tag, &input)?;
            let plain = report_sealed(rt, number, "Kuznyechik", plain)?;
            let tables = report_sealed(rt, number, "Kuznyechik by tables", tables)?;
            Ok(plain.and(tables))
        }
        CipherKind::Magma => {
            let mut cipher = Magma::prepare(&key);
            let mut tag = KuznyechikTables::prepare(&tag_key);
            let trial = try_sealed(heap, vector.mode, &mut cipher, &mut tag, &input)?;
            report_sealed(rt, number, "Magma", trial)
        }
    }
}

// The MAC by Kuznyechik, plain and by tables, or by Magma.
fn run_mac_vector(rt: &HostRuntime, number: u64, vector: MacVector<'_>) -> anyhow::Result<Verdict>
    ensures { IfOk result (λ v. (v ≡ Verdict.Agrees → HoldsMac vector.entry)) }
{
    let input = inputs::mac_input(rt.alloc(), vector)?;
    let key = key_of(rt.alloc(), vector.key)?;
    match vector.cipher {
        CipherKind::Kuznyechik => {
            let plain = try_mac(&mut Kuznyechik::prepare(&key), &input);
            let tables = try_mac(&mut KuznyechikTables::prepare(&key), &input);
            let plain = report_mac(rt, number, "Kuznyechik", plain)?;
            let tables = report_mac(rt, number, "Kuznyechik by tables", tables)?;
            Ok(plain.and(tables))
        }
        CipherKind::Magma => {
            let trial = try_mac(&mut Magma::prepare(&key), &input);
            report_mac(rt, number, "Magma", trial)
        }
    }
}

fn run_vector(rt: &HostRuntime, number: u64, vector: Vector<'_>) -> anyhow::Result<Verdict>
    ensures { IfOk result (λ v. (v ≡ Verdict.Agrees → Holds vector.entry)) }
{
    match vector {
        Vector::Sealed(vector) => run_sealed_vector(rt, number, vector),
        Vector::Mac(vector) => run_mac_vector(rt, number, vector),
    }
}

fn run_line(rt: &HostRuntime, number: u64, line: &str) -> anyhow::Result<Option<Verdict>>
    ensures { IfOk result (Judges HoldsIn line.now) }
{
    judge(
        rt,
        number,
        table::read_entry(line),
        ": no vector",
        |vector| run_vector(rt, number, vector),
    )
}

fn main(rt: HostRuntime) -> anyhow::Result<()> {
    let Tally { cases, differ } = run_table(&rt, |number, line| run_line(&rt, number, line))?;
    println!(rt; "{cases} vectors, {differ} differ")?;
    Ok(())
}
