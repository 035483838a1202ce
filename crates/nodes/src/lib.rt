// The node records as 01 lends them: one array of structs, read into six columns, a field in each, and stored back from
// them: load and store, unchecked, and the same of Columns, whose arrays are long enough, with no `requires`.
// Nothing is assumed of what the nodes hold.
#![tactic(auto)]

ghost use Rattle.std.specs.Prelude.{◌≡◌, replicate};
ghost use Rattle.face_rules.specs.nodes.Columns.{columns, Holds, Loads, Stores};
ghost use Rattle.nodes.specs.Held.{held};

mod fields;
pub mod laying; // the nodes as enabling lays them out, written in place

use crate::fields::read;
pub use face_rules::Node;

// The length of a column: 72 more than are used, so that equal places of two columns do not fall into the same set of
// the cache.
pub const ROOM: usize = 4168;

// As many lent nodes go into the columns; where there are more, none goes.
const MOST: usize = 4096;

// The nodes of a block: it stays in the nearest cache while its six fields are read.
const BLOCK: usize = 256;

// The lent nodes, read into columns: block by block, and inside a block a column at a time.
// For proved code only, unchecked: it hands over columns that are long enough.
#[inline(always)]
pub fn load(
    nodes: &[Node],
    next: &mut [usize],
    prev: &mut [usize],
    bucket: &mut [usize],
    entry: &mut [usize],
    generation: &mut [u32],
    serial: &mut [u64],
)
    requires { Holds 4096 (columns next.old prev.old bucket.old entry.old generation.old serial.old) }
    ensures { Loads nodes.now (columns next.new prev.new bucket.new entry.new generation.new serial.new) }
{
    if MOST < nodes.len() {
        return;
    }
    let mut from = 0;
    for block in nodes.chunks(BLOCK) {
        let to = from + block.len();
        read(block, &mut next[from..to], |node| node.next);
        read(block, &mut prev[from..to], |node| node.prev);
        read(block, &mut bucket[from..to], |node| node.bucket);
        read(block, &mut entry[from..to], |node| node.entry);
        read(block, &mut generation[from..to], |node| node.generation);
        read(block, &mut serial[from..to], |node| node.serial);
        from = to;
    }
}

// The columns, stored back over the lent nodes. Unchecked, as load.
#[inline(always)]
pub fn store(
    nodes: &mut [Node],
    next: &[usize],
    prev: &[usize],
    bucket: &[usize],
    entry: &[usize],
    generation: &[u32],
    serial: &[u64],
)
    requires { Holds 4096 (columns next.now prev.now bucket.now entry.now generation.now serial.now) }
    ensures { Stores nodes.old (columns next.now prev.now bucket.now entry.now generation.now serial.now) nodes.new }
{
    if MOST < nodes.len() {
        return;
    }
    for (i, node) in nodes.iter_mut().enumerate() {
        *node = Node {
            next: next[i],
            prev: prev[i],
            bucket: bucket[i],
            entry: entry[i],
            generation: generation[i],
            serial: serial[i],
        };
    }
}

// A column for each field of the nodes.
#[derive(Drop)]
pub struct Columns {
    pub next: [usize; ROOM],
    pub prev: [usize; ROOM],
    pub bucket: [usize; ROOM],
    pub entry: [usize; ROOM],
    pub generation: [u32; ROOM],
    pub serial: [u64; ROOM],
}

impl Columns {
    pub fn zeroed() -> Columns
        ensures { let zeros = replicate ROOM 0 in held result ≡ columns zeros zeros zeros zeros zeros zeros }
    {
        Columns {
            next: [0; ROOM],
            prev: [0; ROOM],
            bucket: [0; ROOM],
            entry: [0; ROOM],
            generation: [0; ROOM],
            serial: [0; ROOM],
        }
    }

    // The lent nodes, read into the columns.
    pub fn load(&mut self, nodes: &[Node])
        ensures { Loads nodes.now (held self.new) }
    {
        load(
            nodes,
            &mut self.next,
            &mut self.prev,
            &mut self.bucket,
            &mut self.entry,
            &mut self.generation,
            &mut self.serial,
        );
    }

    // The columns, stored back over the lent nodes.
    pub fn store(&self, nodes: &mut [Node])
        ensures { Stores nodes.old (held self.now) nodes.new }
    {
        store(
            nodes,
            &self.next,
            &self.prev,
            &self.bucket,
            &self.entry,
            &self.generation,
            &self.serial,
        );
    }
}
