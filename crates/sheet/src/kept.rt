// What `check` keeps of the bodies before a line: 56 bytes a body in the work area, with the name, and START if it is a ctr body.
ghost use Rattle.std.specs.Prelude.{◌≡◌, ℕ, ◌+◌, ◌≤◌, ◌<◌, List, [], ◌∷◌, ◌++◌, length, drop};
ghost use Rattle.std.specs.Str.{bytes_eq};
ghost use Rattle.std.specs.List.{list_any};
ghost use Rattle.sheet.specs.Slots.{ctr_start, name_kept, start_kept};
ghost use Rattle.sheet_lines.specs.Models.{body_model};

use sheet_format::Mode;
use sheet_lines::line::BodyLine;

const SLOT: usize = 56;

// Where START and NAME begin in a slot; their lengths are its second and its first byte.
const START: usize = 8;

const NAME: usize = 24;

fn name_kept<'a>(slot: &'a [u8; SLOT]) -> &'a [u8]
    ensures { result.now ≡ name_kept slot.now }
{
    let end = (NAME + slot[0] as usize).min(SLOT);
    &slot[NAME..end]
}

fn start_kept<'a>(slot: &'a [u8; SLOT]) -> &'a [u8]
    ensures { result.now ≡ start_kept slot.now }
{
    let end = (START + slot[1] as usize).min(NAME);
    &slot[START..end]
}

// Whether one of the slots has the name, and the START. These are two functions, since the check reads nothing off a closure
// that takes a part of a slot by const parameters.
fn keep_name(slots: &[[u8; SLOT]], name: &[u8]) -> bool
    ensures { result ≡ list_any (λ s. bytes_eq (name_kept s) name.now) slots.now }
{
    slots.iter().any(|slot| name_kept(slot) == name)
}

fn keep_start(slots: &[[u8; SLOT]], start: &[u8]) -> bool
    ensures { result ≡ list_any (λ s. bytes_eq (start_kept s) start.now) slots.now }
{
    slots.iter().any(|slot| start_kept(slot) == start)
}

// START of a ctr body, nothing of another.
fn ctr_start<'a>(body: BodyLine<'a>) -> &'a [u8]
    ensures { result.now ≡ ctr_start (body_model body.entry) }
{
    match body.mode {
        Mode::Ctr => body.start,
        Mode::Cbc => &body.start[0..0],
    }
}

fn fill_slot(slot: &mut [u8; SLOT], start: &[u8], name: &[u8])
    requires start { length start.now ≤ 16 }
    requires name { length name.now ≤ 32 }
    ensures name { name_kept slot.new ≡ name.now }
    ensures start { start_kept slot.new ≡ start.now }
{
    slot[0] = name.len() as u8;
    slot[1] = start.len() as u8;
    slot[START..START + start.len()].copy_from_slice(start);
    slot[NAME..NAME + name.len()].copy_from_slice(name);
}

// The bodies that are kept, one after the other from the front of the work area.
#[derive(Drop)]
pub struct Kept<'a> {
    slots: &'a mut [[u8; SLOT]],
    pub count: usize,
    ghost room: { length slots.now ≡ 32 },
    ghost few: { count ≤ 32 },
}

impl<'a> Kept<'a> {
    ghost use Rattle.sheet_format.specs.Lines.{Body};
    ghost use Rattle.sheet_format.specs.Orders.{has_ctr_start, has_name};
    ghost use Rattle.sheet.specs.Kept.{Keeps};

    // No body yet.
    pub fn new(area: &'a mut [u8]) -> Self
        requires { length area.old ≡ 1792 }
        ensures { Keeps result [] }
    {
        let (slots, _) = area.as_chunks_mut::<SLOT>();
        Kept { slots, count: 0 }
    }

    // Whether one of the bodies has the name.
    pub fn name_taken(&self, name: &[u8]) -> bool
        ensures { (bodies : List Body) → Keeps self.now bodies → result ≡ has_name name.now bodies }
    {
        keep_name(&self.slots[..self.count], name)
    }

    // Whether one of the bodies is in ctr and has the START, which is not empty.
    pub fn start_taken(&self, start: &[u8]) -> bool
        ensures { (bodies : List Body) → Keeps self.now bodies → 1 ≤ length start.now → result ≡ has_ctr_start start.now bodies }
    {
        keep_start(&self.slots[..self.count], start)
    }

    // Keeps one body more.
    pub fn keep(&mut self, body: BodyLine<'_>)
        requires room { self.old.count < 32 }
        requires start { length (ctr_start (body_model body)) ≤ 16 }
        requires name { length body.name.now ≤ 32 }
        ensures kept { (bodies : List Body) → Keeps self.old bodies → Keeps self.new (bodies ++ body_model body.entry ∷ []) }
        ensures rest { drop (self.old.count + 1) self.new.slots.now ≡ drop (self.old.count + 1) self.old.slots.now }
    {
        let slots = &mut *self.slots;
        fill_slot(&mut slots[self.count], ctr_start(body), body.name);
        self.count += 1;
    }
}
