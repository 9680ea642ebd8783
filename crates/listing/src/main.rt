// Lists a binary XML file: standard input in, the lines of docs/FORMAT.md (L1 to L4) out.
//
// The program only moves bytes: what it lists is `listed::list_into`'s promise, `list_input` says so of what came in, and `run` of a reader and a
// writer: what is written is the listing of all that the reader had. More than the limit is refused with 2 and not read to its end. A read that
// fails prints nothing on standard output and ends the program with an error, so that a part of a file is never listed as if it were the whole;
// so does a write that fails, for what was written then is a part of the listing.
#![tactic(auto)]

ghost use Rattle.std.specs.Prelude.{◌≤◌, ◌<◌, length, OnOk, Ok};
ghost use Rattle.records.specs.Limits.{listed_file};
ghost use Rattle.listed.specs.Lists.{Lists};
ghost use Rattle.listed.specs.Roomy.{Roomy};
ghost use Rattle.listing.specs.Streams.{Listed};
ghost use Rattle.listing.specs.Inner.Input.{Runs};

use listing_text::LISTED_BYTES;
use records::{ATTRIBUTE_WORDS, LISTED_ATTRIBUTES, LISTED_FILE, LISTED_NODES, NODE_WORDS};
use std::io;
use std::io::{Read, Write};
use stored::read_in;

// The listing of `file` in the room of a listing, which always suffices: the answer is a text, and the number its length.
// Ruled out: a listing that does not fit the buffer, and one of other tables.
fn list_whole(file: &[u8], nodes: &mut [u32], attributes: &mut [u32], out: &mut [u8]) -> usize
    requires { Roomy (length nodes.old) (length attributes.old) (length out.old) }
    ensures { Lists file.now nodes.old attributes.old out.old (Ok result)
        nodes.new attributes.new out.new }
{
    // never 0: the buffer takes every listing
    listed::list_into(file, nodes, attributes, out).unwrap_or(0)
}

// The listing of what came in, the first n bytes of the room, and its length. The room for the file has more bytes than a file may have, so that a
// full room is refused whatever follows it. Ruled out: the listing of a part of the input.
fn list_input(
    n: usize,
    file: &[u8],
    nodes: &mut [u32],
    attributes: &mut [u32],
    out: &mut [u8],
) -> usize
    requires { (n ≤ length file.now) × (listed_file < length file.now) × Roomy (length nodes.old) (length attributes.old) (length out.old) }
    ensures listed { Runs n file.now nodes.old attributes.old out.old result nodes.new attributes.new out.new }
    ensures within { result ≤ length out.old }
{
    list_whole(&file[..n], nodes, attributes, out)
}

// Reads, lists and writes: of known bytes the listing, in the room of a listing. Nothing is written where a read failed.
// Ruled out: the listing of a part of what the reader had, and a listing that is not written whole.
fn run<R: Read, W: Write>(
    reader: &mut R,
    writer: &mut W,
    file: &mut [u8],
    nodes: &mut [u32],
    attributes: &mut [u32],
    out: &mut [u8],
) -> io::Result<()>
    requires { (listed_file < length file.old) × Roomy (length nodes.old) (length attributes.old) (length out.old) }
    ensures { OnOk result (Listed (R.remaining reader.old) (W.contents writer.old) (W.contents writer.new) (length nodes.old) (length attributes.old)) }
{
    let Ok(n) = read_in(reader, file) else {
        let message = "standard input cannot be read";
        return Err(io::Error::new(io::ErrorKind::Other, message));
    };
    let length = list_input(n, file, nodes, attributes, out);
    writer.write_all(&out[..length])
}

fn main(rt: HostRuntime) -> io::Result<()> {
    let from = &mut rt.stdin();
    let to = &mut rt.stdout();
    let mut file = [0u8; LISTED_FILE + 1];
    let mut nodes = [0u32; NODE_WORDS * LISTED_NODES];
    let mut attributes = [0u32; ATTRIBUTE_WORDS * LISTED_ATTRIBUTES];
    let mut out = [0u8; LISTED_BYTES];
    run(from, to, &mut file, &mut nodes, &mut attributes, &mut out)
}
