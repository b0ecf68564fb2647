// The text that the program `list` prints of an order sheet.
#![tactic(auto)]

ghost use Rattle.std.specs.Prelude.{◌≡◌, ◌++◌, map, is_ok, IfOk, Ok, OnOk};
ghost use Rattle.sheet_format.specs.Lines.{lines_of};
ghost use Rattle.sheet_format.specs.Orders.{bodies_in, map_ok, order_of, ordered, summary};
ghost use Rattle.sheet_format.specs.Sizes.{block_length};
ghost use Rattle.sheet_lines.specs.Models.{body_model};
ghost use Rattle.listing.specs.Listing.{bodies_text, body_text, cipher_text, listing_of, refusal_text, total_text};

use fault::FaultCode;
use sheet::check;
use sheet_format::{Checked, CipherKind, SheetFault, WORK_LENGTH};
use sheet_lines::line::{BodyLine, LineKind};
use sheet_lines::reader::Lines;
use std::alloc::{AllocError, Global};

// What `list` prints of a sheet, and whether the sheet is accepted: a refused sheet has a text too.
#[derive(Drop)]
pub struct Listing {
    pub text: Vec<u8>,
    pub accepted: bool,
}

// Appends the line `c CIPHER n`.
fn put_cipher(out: &mut Vec<u8>, cipher: CipherKind) -> Result<(), AllocError>
    ensures { OnOk result (out.new.items ≡ out.old.items ++ cipher_text cipher) }
{
    let n = cipher.block_length();
    let line = format!(in *out.allocator(); "c {cipher} {n}\n")?;
    out.extend_from_slice(line.as_bytes())?;
    Ok(())
}

// Appends the line `b NUMBER MODE LENGTH BLOCKS SEALED NAME`.
fn put_body(
    out: &mut Vec<u8>,
    cipher: CipherKind,
    number: u64,
    body: BodyLine<'_>,
) -> Result<(), AllocError>
    ensures { OnOk result (out.new.items ≡ out.old.items ++ body_text (block_length cipher) number (ordered (body_model body.entry))) }
{
    let mode = body.mode;
    let length = body.length.value;
    let blocks = mode.blocks(cipher, length);
    let sealed = mode.sealed_length(cipher, length);
    let front = format!(in *out.allocator(); "b {number} {mode} {length} {blocks} {sealed} ")?;
    out.extend_from_slice(front.as_bytes())?;
    out.extend_from_slice(body.name)?;
    out.extend_from_slice(b"\n")?;
    Ok(())
}

// Appends a line for each body of the sheet.
fn put_bodies(out: &mut Vec<u8>, cipher: CipherKind, sheet: &[u8]) -> Result<(), AllocError>
    ensures { OnOk result (out.new.items ≡ out.old.items ++ bodies_text (block_length cipher) 1 (map ordered (bodies_in (lines_of sheet.now)))) }
{
    // the bodies so far, and no index: other lines stand between them
    let mut bodies: u64 = 0;
    for item in Lines::new(sheet) {
        let Ok(line) = item else {
            continue;
        };
        if let LineKind::Body(body) = line.kind {
            put_body(out, cipher, bodies + 1, body)?;
            bodies += 1;
        }
    }
    Ok(())
}

// Appends the line `total BODIES BLOCKS`.
fn put_total(out: &mut Vec<u8>, checked: Checked) -> Result<(), AllocError>
    ensures { OnOk result (out.new.items ≡ out.old.items ++ total_text checked.bodies checked.blocks) }
{
    let bodies = checked.bodies;
    let blocks = checked.blocks;
    let line = format!(in *out.allocator(); "total {bodies} {blocks}\n")?;
    out.extend_from_slice(line.as_bytes())?;
    Ok(())
}

// Appends the line `no LAYER NUMBER PLACE`.
fn put_refusal(out: &mut Vec<u8>, fault: SheetFault) -> Result<(), AllocError>
    ensures { OnOk result (out.new.items ≡ out.old.items ++ refusal_text fault) }
{
    let code = FaultCode::from(fault);
    let line = format!(in *out.allocator(); "no {code}\n")?;
    out.extend_from_slice(line.as_bytes())?;
    Ok(())
}

// Appends the listing of an accepted sheet.
fn put_order(out: &mut Vec<u8>, sheet: &[u8], checked: Checked) -> Result<(), AllocError>
    requires { map_ok summary (order_of sheet.now) ≡ Ok checked }
    ensures { OnOk result (out.new.items ≡ out.old.items ++ listing_of sheet.now) }
{
    let cipher = CipherKind::try_from(checked.block_length).unwrap();
    put_cipher(out, cipher)?;
    put_bodies(out, cipher, sheet)?;
    put_total(out, checked)
}

// Appends the listing of a sheet, by what `check` answered of it.
fn put_listing(
    out: &mut Vec<u8>,
    sheet: &[u8],
    answer: Result<Checked, SheetFault>,
) -> Result<(), AllocError>
    requires { answer ≡ map_ok summary (order_of sheet.now) }
    ensures { OnOk result (out.new.items ≡ out.old.items ++ listing_of sheet.now) }
{
    match answer {
        Ok(checked) => put_order(out, sheet, checked),
        Err(fault) => put_refusal(out, fault),
    }
}

// What `list` prints of a sheet.
pub fn list_sheet(heap: Global, sheet: &[u8]) -> Result<Listing, AllocError>
    ensures text { IfOk result (λ l. l.text.items ≡ listing_of sheet.now) }
    ensures accepted { IfOk result (λ l. l.accepted ≡ is_ok (order_of sheet.now)) }
{
    let mut work = [0u8; WORK_LENGTH];
    let answer = check(sheet, &mut work);
    let accepted = answer.is_ok();
    let mut text = Vec::new(heap);
    put_listing(&mut text, sheet, answer)?;
    Ok(Listing { text, accepted })
}
