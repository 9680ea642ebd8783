// Whether lent tables fit the counts that come with them: before a record is read, it is there.
//
// Mirrors nothing of the Rust's, whose tree is its own. Answers: nothing, or the number of the first node that does not fit.
// Definitions: specs/Question.antt, docs/FORMAT.md, Q6.
ghost use Rattle.std.specs.Prelude.{◌≡◌, ◌+◌, ◌*◌, ◌≤◌, ltb, length};
ghost use Rattle.records.specs.Words.{node_width};
ghost use Rattle.first_value.specs.Question.{runs_from, fit_of};

use records::{NODE_COUNT, NODE_FIRST, attribute_place, node_place};

// Whether a node's attributes pass the count. The sum is made as usize, where it does not wrap.
fn passes(attributes: u32, first: u32, number: u32) -> bool
    ensures { result ≡ ltb attributes (first + number) }
{
    (attributes as usize) < (first as usize) + (number as usize)
}

// In tables of so many nodes: the first node whose attributes pass the count.
fn runs_fit(nodes: &[u32], node_count: u32, attribute_count: u32) -> Result<(), u32>
    requires { node_width * node_count ≤ length nodes.now }
    ensures { result ≡ runs_from attribute_count 0 node_count nodes.now }
{
    for k in 0..node_count {
        let at = node_place(k);
        if passes(
            attribute_count,
            nodes[at + NODE_FIRST],
            nodes[at + NODE_COUNT],
        ) {
            return Err(k);
        }
    }
    Ok(())
}

// The counts first, by the words of both tables, and then each node.
// Ruled out: the first bad node where a count is past the words, and a fit where a node without attributes begins past the count.
#[tactic(auto, unfolding(crate::specs::Question::fit_of))]
pub fn fit_of(
    nodes: &[u32],
    attributes: &[u32],
    node_count: u32,
    attribute_count: u32,
) -> Result<(), u32>
    ensures { result ≡ fit_of nodes.now attributes.now node_count attribute_count }
{
    if nodes.len() < node_place(node_count) {
        return Err(node_count);
    }
    if attributes.len() < attribute_place(attribute_count) {
        return Err(node_count);
    }
    runs_fit(nodes, node_count, attribute_count)
}
