// The text of a value by its type alone, at the front of a lent buffer.
//
// Mirrors structs/common.rs (apk-info 13770539b8), the arms of `to_string`. Definitions: specs/Value.antt, `plain_by`.
ghost use Rattle.std.specs.Prelude.{◌≡◌, cond, ◌∷◌, List, ◌≤◌, eqb, length};
ghost use Rattle.records.specs.Limits.{file_limit};
ghost use Rattle.digits.specs.Digits.{signed_text, hex_text};
ghost use Rattle.digits.specs.Written.{Wrote};
ghost use Rattle.system_types.specs.Names.{Rising, lends, top_byte, system_name};
ghost use Rattle.text.specs.Content.{string_of, text_in};
ghost use Rattle.text.specs.Inner.Found.{Asks, Inside, part_of};
ghost use Rattle.common.specs.ValueType.{value_type_of};
ghost use Rattle.items.specs.Items.{part_in};
ghost use Rattle.items.specs.Values.{said, is_said};
ghost use Rattle.value_text.specs.Value.{bool_text, reference_by, attribute_by, plain_by, string_state};
ghost use Rattle.value_text.specs.Inner.Leads.{Leads};
ghost use Rattle.value_text.specs.Inner.Forms.{form_of, form_text, is_other, is_pool};

use common::{ResourceId, ResourceValueType, StringIndex, value_type_of};
use digits::{put_byte, put_bytes, put_hex, put_signed};
use errors::TextState;
use head::found_told;
use items::part_of;
use system_types::get_type_name;
use text::{Found, Head, find, found_into, is_found};

// How a value is written.
#[derive(Clone, Copy)]
pub enum Form {
    Reference,
    Attribute,
    Pool,
    Number,
    Word,
    Truth,
    Color,
    Other,
}

// A mark and the eight digits.
fn put_marked(out: &mut [u8], mark: u8, v: u32) -> usize
    ensures { Wrote 9 0 (mark ∷ hex_text v) out.old result out.new }
{
    let at = put_byte(out, 0, mark);
    put_hex(out, at, v)
}

// `0x` and the eight digits.
fn put_word_of(out: &mut [u8], v: u32) -> usize
    ensures { Wrote 10 0 (48 ∷ 120 ∷ hex_text v) out.old result out.new }
{
    let at = put_bytes(out, 0, b"0x");
    put_hex(out, at, v)
}

fn put_truth(out: &mut [u8], v: u32) -> usize
    ensures { Wrote 5 0 (bool_text v) out.old result out.new }
{
    if v == 0 {
        return put_bytes(out, 0, b"false");
    }
    put_bytes(out, 0, b"true")
}

// `@` and a name.
fn put_at(out: &mut [u8], area: &[u8], start: u32, n: u32) -> usize
    ensures { Wrote 4294967296 0 (64 ∷ part_in area.now start n) out.old result out.new }
{
    let at = put_byte(out, 0, 64);
    put_bytes(out, at, part_of(area, start, n))
}

fn put_reference(out: &mut [u8], names: &[u32], area: &[u8], v: u32) -> usize
    requires { Rising names.now }
    ensures { Wrote 4294967296 0 (reference_by area.now v (system_name v names.now)) out.old result out.new }
{
    let name = get_type_name(names, ResourceId(v));
    match name {
        Some((start, n)) => put_at(out, area, start, n),
        None => put_marked(out, 64, v),
    }
}

// A name, a part of the area.
fn put_name(out: &mut [u8], area: &[u8], start: u32, n: u32) -> usize
    ensures { Wrote 4294967296 0 (part_in area.now start n) out.old result out.new }
{
    put_bytes(out, 0, part_of(area, start, n))
}

// `@` for an id of the framework, `?` for any other.
fn mark_of(v: u32) -> u8
    ensures { result ≡ cond (eqb (top_byte v) 1) 64 63 }
{
    if v / 16777216 == 1 {
        return 64;
    }
    63
}

fn put_attribute(out: &mut [u8], names: &[u32], area: &[u8], v: u32) -> usize
    requires { Rising names.now }
    ensures { Wrote 4294967296 0 (attribute_by area.now v (system_name v names.now)) out.old result out.new }
{
    let name = get_type_name(names, ResourceId(v));
    match name {
        Some((start, n)) => put_name(out, area, start, n),
        None => put_marked(out, mark_of(v), v),
    }
}

// The string of the pool: no names are asked, so none is found among them.
fn put_string(t: &[u8], names: &[u32], area: &[u8], h: Head, out: &mut [u8], v: u32) -> usize
    requires { Asks t.now (lends names.now area.now) h }
    ensures { Leads (text_in (string_of h t.now v)) out.old result out.new }
{
    let f = find(t, &names[0..0], area, h, StringIndex(v));
    found_into(t, area, h.utf16, f, out)
}

// What became of the string that was found; past the pool no text stood.
// Ruled out: `Whole` for a string past the pool.
pub fn string_state(t: &[u8], area: &[u8], utf16: bool, f: Found) -> TextState
    requires { Inside t.now area.now f × (length t.now ≤ file_limit) }
    ensures { result ≡ string_state (part_of utf16 t.now area.now f) }
{
    if !is_found(f) {
        return TextState::Cut;
    }
    found_told(t, area, utf16, f)
}

// How a value of a type is written.
#[tactic(auto, unfolding(crate::specs::Inner::Forms::form_of))]
pub fn form_of(kind: u32) -> Form
    ensures { result ≡ form_of (value_type_of kind) }
{
    let named = value_type_of(kind);
    match named {
        ResourceValueType::Null => Form::Other,
        ResourceValueType::Reference => Form::Reference,
        ResourceValueType::Attribute => Form::Attribute,
        ResourceValueType::String => Form::Pool,
        ResourceValueType::Float => Form::Other,
        ResourceValueType::Dimension => Form::Other,
        ResourceValueType::Fraction => Form::Other,
        ResourceValueType::DynamicReference => Form::Reference,
        ResourceValueType::DynamicAttribute => Form::Other,
        ResourceValueType::Dec => Form::Number,
        ResourceValueType::Hex => Form::Word,
        ResourceValueType::Boolean => Form::Truth,
        ResourceValueType::ColorArgb8 => Form::Color,
        ResourceValueType::ColorRgb8 => Form::Color,
        ResourceValueType::ColorArgb4 => Form::Color,
        ResourceValueType::ColorRgb4 => Form::Color,
        ResourceValueType::Unknown(_) => Form::Other,
    }
}

// Whether a value of the form has no text.
pub fn is_other(form: Form) -> bool
    ensures { result ≡ is_other form }
{
    matches!(form, Form::Other)
}

// Whether a value of the form is a string of the pool.
pub fn is_pool(form: Form) -> bool
    ensures { result ≡ is_pool form }
{
    matches!(form, Form::Pool)
}

// The text of a value at the front of a buffer; what stands behind it is anything.
pub fn put_plain(
    t: &[u8],
    names: &[u32],
    area: &[u8],
    h: Head,
    out: &mut [u8],
    form: Form,
    v: u32,
) -> usize
    requires { Asks t.now (lends names.now area.now) h }
    ensures { Leads (form_text h t.now (lends names.now area.now) v form) out.old result out.new }
{
    match form {
        Form::Reference => put_reference(out, names, area, v),
        Form::Attribute => put_attribute(out, names, area, v),
        Form::Pool => put_string(t, names, area, h, out, v),
        Form::Number => put_signed(out, 0, v),
        Form::Word => put_word_of(out, v),
        Form::Truth => put_truth(out, v),
        Form::Color => put_marked(out, 35, v),
        Form::Other => 0,
    }
}
