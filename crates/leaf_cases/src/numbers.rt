// The numbers of one anomaly of each kind, and of one refusal of each.
use anomaly::{ResAnomaly, note_of};
use common::StringIndex;
use errors::{Refusal, read_numbers};
use std::io;

fn print_note(rt: &impl Print, x: ResAnomaly) -> io::Result<()> {
    let n = note_of(x);
    println!(rt; "kind={} a={} b={}", n.kind, n.a, n.b)
}

pub(crate) fn print_notes(rt: &impl Print) -> io::Result<()> {
    print_note(rt, ResAnomaly::StringPoolGarbageChunk(500, 600))?;
    print_note(rt, ResAnomaly::StringCountMismatch(501, 601))?;
    print_note(rt, ResAnomaly::StringOffsetsOutOfBounds(502))?;
    print_note(rt, ResAnomaly::NonXmlChunk(503))?;
    print_note(rt, ResAnomaly::XmlNodeHeaderSize(504))?;
    print_note(rt, ResAnomaly::UnknownChunk(505))?;
    print_note(rt, ResAnomaly::AttributeStartShifted(506))?;
    print_note(rt, ResAnomaly::AttributeSizeMismatch(507))?;
    print_note(rt, ResAnomaly::ElementTrailingBytes(508))?;
    print_note(rt, ResAnomaly::InvalidElementName(StringIndex(509), 1))?;
    print_note(rt, ResAnomaly::InvalidAttributeName(StringIndex(510)))?;
    print_note(rt, ResAnomaly::TruncatedXml)?;
    print_note(rt, ResAnomaly::UnclosedElements(512))?;
    print_note(rt, ResAnomaly::DamagedElementName(StringIndex(513), 3))
}

fn print_refusal(rt: &impl Print, r: Refusal) -> io::Result<()> {
    let n = read_numbers(Err(r));
    println!(rt; "refusal={} value={}", n.refusal, n.value)
}

pub(crate) fn print_refusals(rt: &impl Print) -> io::Result<()> {
    print_refusal(rt, Refusal::TooSmallError(5))?;
    print_refusal(rt, Refusal::TooLargeError)?;
    print_refusal(rt, Refusal::HeaderSizeError(16))?;
    print_refusal(rt, Refusal::MissingRoot)?;
    print_refusal(rt, Refusal::SystemNamesError(7000))?;
    print_refusal(rt, Refusal::NodesFull(8000))?;
    print_refusal(rt, Refusal::AttributesFull(9000))?;
    print_refusal(rt, Refusal::NotesFull(10000))?;
    print_refusal(rt, Refusal::TextShort(11000))?;
    print_refusal(rt, Refusal::NothingFound)?;
    print_refusal(rt, Refusal::TablesError(13000))?;
    print_refusal(rt, Refusal::ItemsError(14000))?;
    print_refusal(rt, Refusal::NoPlainText(15000))?;
    print_refusal(rt, Refusal::ModeError(16000))?;
    print_refusal(rt, Refusal::PairsError(20000))?;
    print_refusal(rt, Refusal::AnswersFull(21000))?;
    print_refusal(rt, Refusal::ListingMalformed(24000))?;
    print_refusal(rt, Refusal::ListingNumber(25000))?;
    print_refusal(rt, Refusal::ListingOrder(26000))?;
    print_refusal(rt, Refusal::NotesOff)?;
    print_refusal(rt, Refusal::ListFull(28000))?;
    print_refusal(rt, Refusal::RoundUpFull)?;
    print_refusal(rt, Refusal::StringPoolGarbage(41000))?;
    print_refusal(rt, Refusal::StringPoolHeader(42000))?;
    print_refusal(rt, Refusal::StringPoolOffsets(43000))?;
    print_refusal(rt, Refusal::StringPoolStyles(44000))?;
    print_refusal(rt, Refusal::StringPoolData(45000))?;
    print_refusal(rt, Refusal::ResourceMapHeader(51000))?;
    print_refusal(rt, Refusal::ResourceMapIds(52000))
}
