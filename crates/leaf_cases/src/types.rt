// The types of chunks and of values over all numbers below 65,536: what comes back, what has a name, what is picked out.
ghost use Rattle.std.specs.Prelude.{◌≤◌};

use chunk::is_xml_node;
use common::{
    ResChunkHeader, ResourceHeaderType, ResourceValueType, header_type_number, header_type_of,
    is_reference, value_type_number, value_type_of,
};
use std::io;

fn is_named_header(t: ResourceHeaderType) -> bool {
    !matches!(t, ResourceHeaderType::Unknown(_))
}

fn is_named_value(t: ResourceValueType) -> bool {
    !matches!(t, ResourceValueType::Unknown(_))
}

fn header_back(n: u32) -> u32
    ensures { result ≤ 1 }
{
    u32::from(header_type_number(header_type_of(n)) == n)
}

fn header_named(n: u32) -> u32
    ensures { result ≤ 1 }
{
    u32::from(is_named_header(header_type_of(n)))
}

fn header_xml(n: u32) -> u32
    ensures { result ≤ 1 }
{
    let h = ResChunkHeader {
        kind: n,
        header_size: 16,
        size: 24,
    };
    u32::from(is_xml_node(h))
}

fn value_back(n: u32) -> u32
    ensures { result ≤ 1 }
{
    u32::from(value_type_number(value_type_of(n)) == n)
}

fn value_named(n: u32) -> u32
    ensures { result ≤ 1 }
{
    u32::from(is_named_value(value_type_of(n)))
}

fn value_reference(n: u32) -> u32
    ensures { result ≤ 1 }
{
    u32::from(is_reference(value_type_of(n)))
}

// Of the numbers below 65,536: how many come back, how many have a name, and how many are picked out.
#[derive(Clone, Copy)]
struct Types {
    back: u32,
    named: u32,
    picked: u32,
}

// As types of chunks; XML is picked out.
fn header_types() -> Types {
    let mut back: u32 = 0;
    let mut named: u32 = 0;
    let mut picked: u32 = 0;
    for n in 0..65536 {
        back += header_back(n);
        named += header_named(n);
        picked += header_xml(n);
    }
    Types {
        back,
        named,
        picked,
    }
}

// As types of values; references are picked out.
fn value_types() -> Types {
    let mut back: u32 = 0;
    let mut named: u32 = 0;
    let mut picked: u32 = 0;
    for n in 0..65536 {
        back += value_back(n);
        named += value_named(n);
        picked += value_reference(n);
    }
    Types {
        back,
        named,
        picked,
    }
}

pub(crate) fn print_types(rt: &impl Print) -> io::Result<()> {
    let h = header_types();
    println!(rt;
        "header types {} named {} xml {}",
        h.back, h.named, h.picked
    )?;
    let v = value_types();
    println!(rt;
        "value types {} named {} references {}",
        v.back, v.named, v.picked
    )
}
