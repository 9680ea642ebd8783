// The seven lines of the head. Definitions: specs/Back.antt, `head_of`; how the struct stands for its numbers: specs/Inner/Whole.antt.
ghost use Rattle.std.specs.Prelude.{◌≡◌, not, ◌&&◌, ℕ, eqb};
ghost use Rattle.listing_back.specs.Back.{is_plain, zero_where};
ghost use Rattle.listing_back.specs.Inner.Steps.{test_by};
ghost use Rattle.listing_back.specs.Inner.Whole.{spot_of, ReadsHead};

use crate::stepping::{Kind, Spot, gone, number_due};

// The fault of a line and its value, or the place behind the head; and the head's numbers, which mean something where there is no fault.
#[derive(Clone, Copy)]
pub struct Heading {
    pub fault: u32,
    pub stop: usize,
    pub at: usize,
    pub refusal: u32,
    pub value: u32,
    pub cap: u32,
    pub starts: u32,
    pub nodes: u32,
    pub attributes: u32,
    pub notes: u32,
}

// How the value beside this refusal is tested.
fn value_kind(refusal: u32) -> Kind
    ensures { (v : ℕ) → zero_where (is_plain refusal) v ≡ test_by result v }
{
    if refusal == 0 {
        return Kind::Zero;
    }
    if refusal == 2 {
        return Kind::Zero;
    }
    if refusal == 6 {
        return Kind::Zero;
    }
    Kind::Any
}

// How a count beside this refusal is tested.
fn count_kind(refusal: u32) -> Kind
    ensures { (v : ℕ) → zero_where (not (eqb refusal 0)) v ≡ test_by result v }
{
    if refusal == 0 {
        return Kind::Any;
    }
    Kind::Zero
}

// How many notes there are, beside this refusal and at this cap.
fn note_kind(refusal: u32, cap: u32) -> Kind
    ensures { (v : ℕ) → (zero_where (not (eqb refusal 0)) v && zero_where (eqb cap 0) v) ≡ test_by result v }
{
    if refusal != 0 {
        return Kind::Zero;
    }
    if cap == 0 {
        return Kind::Zero;
    }
    Kind::Any
}

fn heading_of(a: Spot, b: Spot, c: Spot, d: Spot, e: Spot, f: Spot, g: Spot) -> Heading
    ensures { result ≡ record {
      fault = g.fault;
      stop = g.value;
      at = g.at;
      refusal = a.number;
      value = b.number;
      cap = c.number;
      starts = d.number;
      nodes = e.number;
      attributes = f.number;
      notes = g.number;
    } }
{
    Heading {
        fault: g.fault,
        stop: g.value,
        at: g.at,
        refusal: a.number,
        value: b.number,
        cap: c.number,
        starts: d.number,
        nodes: e.number,
        attributes: f.number,
        notes: g.number,
    }
}

pub fn read_head(text: &[u8]) -> Heading
    ensures { ReadsHead text.now result }
{
    let a = number_due(text, gone(0, 0), 0, 1, Kind::Code);
    let b = number_due(text, a, 1, 2, value_kind(a.number));
    let c = number_due(text, b, 2, 3, Kind::Any);
    let counted = count_kind(a.number);
    let d = number_due(text, c, 3, 4, counted);
    let e = number_due(text, d, 4, 5, counted);
    let f = number_due(text, e, 5, 6, counted);
    let g = number_due(text, f, 6, 7, note_kind(a.number, c.number));
    heading_of(a, b, c, d, e, f, g)
}

pub fn spot_of(h: Heading) -> Spot
    ensures { result ≡ spot_of h }
{
    Spot {
        fault: h.fault,
        value: h.stop,
        at: h.at,
        number: 0,
    }
}
