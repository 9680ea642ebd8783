// Steps that ask for names: an element that opens, and its attributes one by one.
// Each function follows the definition of its name in specs/Inner/Steps.antt; t, names and area are what texts are read from.
ghost use Rattle.std.specs.Prelude.{◌≡◌, cond, ◌+◌, ◌≤◌, ◌<◌, length, drop};
ghost use Rattle.records.specs.Limits.{file_limit};
ghost use Rattle.records.specs.Words.{own_prefix};
ghost use Rattle.utf.specs.Text.{state_number};
ghost use Rattle.text.specs.Content.{content_of, damage_in, state_in, is_android};
ghost use Rattle.text.specs.Inner.Found.{Asks};
ghost use Rattle.events.specs.Events.{names_in, leading, attribute_by, attribute_event};
ghost use Rattle.events.specs.Inner.Steps.{opened_by, moved_by, open_step, named_step, name_step, to_step};
ghost use Rattle.events.specs.Inner.Remembered.{look_step, Remembers};
ghost use Rattle.events.specs.declared.Event.TheVariants.{Note, Attribute};
ghost use Rattle.events.specs.declared.Phase.TheVariants.{AtNamed, AtOpen};
ghost use Rattle.anomaly.specs.declared.ResAnomaly.TheVariants.{InvalidElementName, InvalidAttributeName, DamagedElementName};
ghost use Rattle.system_types.specs.Names.{lends};

use crate::memory::{known_look, known_state};
use crate::moves::{after_open, moved_by, opened_by, to_step};
use crate::{Cursor, Event, Phase, Step};
use anomaly::ResAnomaly;
use common::StringIndex;
use records::{APART, OWN_PREFIX};
use text::{Head, NameState, has_text, is_android};
use xml_elements::{XmlAttributeElement, attribute_at};

// ---- an element

// The element opens: `fixed` is 1 for `invalid-element`.
pub fn open_step(c: Cursor, fixed: u32) -> Step
    requires { (c.at ≤ file_limit) × (c.depth ≤ file_limit) × (c.starts ≤ file_limit) }
    ensures { result ≡ open_step c fixed }
{
    let s = c.start;
    Step {
        event: Event::Open(s.name, fixed, s.line),
        cur: after_open(c),
    }
}

// Note 9 comes before its element: `text` is 1 if its name has a text.
fn invalid_step(c: Cursor, text: u32) -> Step
    ensures { result ≡ to_step c (Note (InvalidElementName c.start.name text)) AtOpen }
{
    let note = ResAnomaly::InvalidElementName(c.start.name, text);
    to_step(c, Event::Note(note), Phase::AtOpen)
}

// Note 32 comes before all that is said of the name: `state` is that of its text.
fn damaged_step(c: Cursor, state: u32) -> Step
    ensures { result ≡ to_step c (Note (DamagedElementName c.start.name state)) AtNamed }
{
    let note = ResAnomaly::DamagedElementName(c.start.name, state);
    to_step(c, Event::Note(note), Phase::AtNamed)
}

// The step at a name, by what a look at it tells (specs/Inner/Remembered.antt, `look_by`): most are valid and whole.
// Ruled out: note 32 for a whole text that is no valid name, and note 9 before it for a damaged one.
fn look_step(c: Cursor, look: u32) -> Step
    requires { (c.at ≤ file_limit) × (c.depth ≤ file_limit) × (c.starts ≤ file_limit) }
    ensures { result ≡ look_step c look }
{
    if look == 1 {
        return open_step(c, 0);
    }
    if look == 8 {
        return invalid_step(c, 0);
    }
    if look < 2 {
        return invalid_step(c, 1);
    }
    damaged_step(c, look / 2)
}

pub fn name_step(
    t: &[u8],
    names: &[u32],
    area: &[u8],
    h: Head,
    c: Cursor,
    memory: &mut [u32],
) -> Step
    requires { (Asks t.now (lends names.now area.now) h × (c.at ≤ file_limit) × (c.depth ≤ file_limit) × (c.starts ≤ file_limit))
        × Remembers h t.now (lends names.now area.now) memory.old }
    ensures { (result ≡ name_step c (state_number (damage_in (content_of h t.now (lends names.now area.now) c.start.name.0)))
        (state_in (content_of h t.now (lends names.now area.now) c.start.name.0)))
        × Remembers h t.now (lends names.now area.now) memory.new }
{
    let look = known_look(t, names, area, h, c.start.name, memory);
    look_step(c, look)
}

// Behind note 32.
pub fn named_step(
    t: &[u8],
    names: &[u32],
    area: &[u8],
    h: Head,
    c: Cursor,
    memory: &mut [u32],
) -> Step
    requires { (Asks t.now (lends names.now area.now) h × (c.at ≤ file_limit) × (c.depth ≤ file_limit) × (c.starts ≤ file_limit))
        × Remembers h t.now (lends names.now area.now) memory.old }
    ensures { (result ≡ named_step c (state_in (content_of h t.now (lends names.now area.now) c.start.name.0)))
        × Remembers h t.now (lends names.now area.now) memory.new }
{
    match known_state(t, names, area, h, c.start.name, memory) {
        NameState::NoText => invalid_step(c, 0),
        NameState::Invalid => invalid_step(c, 1),
        NameState::Valid => open_step(c, 0),
    }
}

// ---- attributes

// The leading attribute of the first element.
pub fn lead_step(c: Cursor) -> Step
    requires { (c.at ≤ file_limit) × (c.depth ≤ file_limit) × (c.starts ≤ file_limit) }
    ensures { result ≡ record { event = leading; cur = opened_by c } }
{
    let namespace_uri = StringIndex(0);
    let a = XmlAttributeElement {
        namespace_uri,
        name: StringIndex(0),
        data_type: 3,
        data: 0,
    };
    Step {
        event: Event::Attribute(2, a),
        cur: opened_by(c),
    }
}

// 1 (android) for the Android namespace, 3 for any other text.
fn apart_prefix(t: &[u8], names: &[u32], area: &[u8], h: Head, index: StringIndex) -> u32
    requires { Asks t.now (lends names.now area.now) h }
    ensures { result ≡ cond (is_android (content_of h t.now (lends names.now area.now) index.0)) 1 own_prefix }
{
    if is_android(t, names, area, h, index) {
        return 1;
    }
    OWN_PREFIX
}

// The prefix of a namespace index, by the mode of the reading.
fn prefix_of(t: &[u8], names: &[u32], area: &[u8], h: Head, mode: u32, index: StringIndex) -> u32
    requires { Asks t.now (lends names.now area.now) h }
    ensures { result ≡ (names_in mode h t.now (lends names.now area.now)).prefix_of index.0 }
{
    if !has_text(t, names, area, h, index) {
        return 0;
    }
    if mode == APART {
        return apart_prefix(t, names, area, h, index);
    }
    1
}

fn valid_attribute(
    t: &[u8],
    names: &[u32],
    area: &[u8],
    h: Head,
    mode: u32,
    a: XmlAttributeElement,
) -> Event
    requires { Asks t.now (lends names.now area.now) h }
    ensures { result ≡ Attribute ((names_in mode h t.now (lends names.now area.now)).prefix_of a.namespace_uri.0) a }
{
    let prefix = prefix_of(t, names, area, h, mode, a.namespace_uri);
    Event::Attribute(prefix, a)
}

// What an attribute makes: its name is looked up once.
fn attribute_event(
    t: &[u8],
    names: &[u32],
    area: &[u8],
    h: Head,
    mode: u32,
    a: XmlAttributeElement,
    memory: &mut [u32],
) -> Event
    requires { Asks t.now (lends names.now area.now) h × Remembers h t.now (lends names.now area.now) memory.old }
    ensures { (result ≡ attribute_by (names_in mode h t.now (lends names.now area.now)) a
        ((names_in mode h t.now (lends names.now area.now)).state a.name.0))
        × Remembers h t.now (lends names.now area.now) memory.new }
{
    let name = a.name;
    match known_state(t, names, area, h, name, memory) {
        NameState::NoText => Event::LeftOut(name),
        NameState::Invalid => Event::Note(ResAnomaly::InvalidAttributeName(name)),
        NameState::Valid => valid_attribute(t, names, area, h, mode, a),
    }
}

pub fn attribute_step(
    t: &[u8],
    names: &[u32],
    area: &[u8],
    h: Head,
    mode: u32,
    b: &[u8],
    c: Cursor,
    memory: &mut [u32],
) -> Step
    requires { (Asks t.now (lends names.now area.now) h × (c.at + 20 ≤ length b.now) × (length b.now ≤ file_limit) × (0 < c.left))
        × Remembers h t.now (lends names.now area.now) memory.old }
    ensures { (result ≡ record {
      event = attribute_event (names_in mode h t.now (lends names.now area.now)) (drop c.at b.now);
      cur = moved_by c;
    }) × Remembers h t.now (lends names.now area.now) memory.new }
{
    let a = attribute_at(&b[c.at..]);
    Step {
        event: attribute_event(t, names, area, h, mode, a, memory),
        cur: moved_by(c),
    }
}
