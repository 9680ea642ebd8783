// The resource map: resource ids by string index.
//
// Mirrors structs/xml_elements.rs (apk-info 13770539b8): `XMLResourceMap::parse`. Definitions: specs/Map.antt.
// Differs from the Rust: the ids stay in the file, and one is read when it is asked for.
#![tactic(auto)]

ghost use Rattle.std.specs.Prelude.{◌≡◌, ◌+◌, ◌*◌, ◌≤◌, length};
ghost use Rattle.resource_map.specs.Map.{ids_in, ids_by, map_of, id_of};

use common::{ResChunkHeader, ResourceId, StringIndex, header_at};
use field::u32_at;

// The part of a map that ran out, with the bytes left where it begins.
#[derive(Clone, Copy, Debug, PartialEq, Eq)]
pub enum MapShort {
    Header(usize),
    Ids(usize),
}

#[tactic(auto, unfolding(crate::specs::Map::ids_in))]
fn ids_in(h: ResChunkHeader) -> u32
    ensures { result ≡ ids_in h }
{
    h.size.saturating_sub(h.header_size) / 4
}

// The ids behind the header h, with `left` bytes there.
#[tactic(auto, unfolding(crate::specs::Map::ids_by))]
fn ids_of(h: ResChunkHeader, left: usize) -> Result<u32, MapShort>
    ensures { result ≡ ids_by left h }
{
    let n = ids_in(h);
    if left < 4 * (n as usize) {
        return Err(MapShort::Ids(left));
    }
    Ok(n)
}

// How many ids the map at the front of s has, the bytes behind the pool; or the part that ran out.
// Ruled out: one id for size 12 and header size 12 (the ids are counted from the header size, not from 8), and a map whose last
// id is cut.
pub fn map_of(s: &[u8]) -> Result<u32, MapShort>
    ensures { result ≡ map_of s.now }
{
    let Some(h) = header_at(s, 0) else {
        return Err(MapShort::Header(s.len()));
    };
    ids_of(h, s.len() - 8)
}

// The id of a string index, from `ids`, the bytes behind the map's header.
// Ruled out: the number at the byte of that place, and the id with its high byte first.
#[tactic(auto, unfolding(crate::specs::Map::id_of))]
pub fn id_at(ids: &[u8], index: StringIndex) -> ResourceId
    requires { 4 * index.0 + 4 ≤ length ids.now }
    ensures { result.0 ≡ id_of ids.now index.0 }
{
    ResourceId(u32_at(ids, 4 * (index.0 as usize)))
}
