// The answers of a listing read back, from their numbers. Definitions: errors/specs/Refusal.antt; specs/Inner/Whole.antt.
ghost use Rattle.std.specs.Prelude.{◌≡◌, true, ◌≤◌};
ghost use Rattle.errors.specs.Refusal.{numbers_of};
ghost use Rattle.listing_back.specs.Inner.Whole.{is_own, Says, Sayable, heading_numbers, TestedHeading};

use crate::opening::Heading;
use errors::{ReadCounts, Refusal};

// A refusal of the reader's own.
pub fn own_refusal(number: u32, value: usize) -> Refusal
    requires { is_own number ≡ true }
    ensures { Says number value result }
{
    if number == 8 {
        return Refusal::NodesFull(value);
    }
    if number == 9 {
        return Refusal::AttributesFull(value);
    }
    if number == 10 {
        return Refusal::NotesFull(value);
    }
    if number == 24 {
        return Refusal::ListingMalformed(value);
    }
    if number == 25 {
        return Refusal::ListingNumber(value);
    }
    Refusal::ListingOrder(value)
}

// A refusal that is listed: of a part that is short.
fn part_refusal(number: u32, value: usize) -> Refusal
    requires { (Sayable number value) × (41 ≤ number) }
    ensures { Says number value result }
{
    if number == 41 {
        return Refusal::StringPoolGarbage(value);
    }
    if number == 42 {
        return Refusal::StringPoolHeader(value);
    }
    if number == 43 {
        return Refusal::StringPoolOffsets(value);
    }
    if number == 44 {
        return Refusal::StringPoolStyles(value);
    }
    if number == 45 {
        return Refusal::StringPoolData(value);
    }
    if number == 51 {
        return Refusal::ResourceMapHeader(value);
    }
    Refusal::ResourceMapIds(value)
}

// A refusal that is listed, with its value.
fn listed_refusal(number: u32, value: u32) -> Refusal
    requires { Sayable number value }
    ensures { Says number value result }
{
    if 41 <= number {
        return part_refusal(number, value as usize);
    }
    if number == 1 {
        return Refusal::TooSmallError(value as usize);
    }
    if number == 2 {
        return Refusal::TooLargeError;
    }
    if number == 3 {
        return Refusal::HeaderSizeError(value);
    }
    Refusal::MissingRoot
}

fn counted(h: Heading) -> Result<ReadCounts, Refusal>
    ensures { numbers_of result ≡ record {
      refusal = 0;
      value = 0;
      starts = h.starts;
      nodes = h.nodes;
      attributes = h.attributes;
      notes = h.notes;
    } }
{
    Ok(ReadCounts {
        starts: h.starts,
        nodes: h.nodes,
        attributes: h.attributes,
        notes: h.notes,
    })
}

// The answer that a head says.
pub fn listed_answer(h: Heading) -> Result<ReadCounts, Refusal>
    requires { TestedHeading h }
    ensures { numbers_of result ≡ heading_numbers h }
{
    if h.refusal == 0 {
        return counted(h);
    }
    Err(listed_refusal(h.refusal, h.value))
}
