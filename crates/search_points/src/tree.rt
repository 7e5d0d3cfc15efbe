// The tree of ways to change values, depth first.
ghost use Rattle.std.specs.Prelude.{◌≤◌};

use crate::faults::ways_on;
use crate::vertices::vertex_with;
use crate::ways::{Way, put_rows};
use search_base::{Fuel, SearchStop};
use search_rows::{LinearRow, Point};
use search_state::Prover;

/// How deep trees are, one after the other, and how many nodes of each are looked at.
const TREES: [(u32, u32); 4] = [(6, 200), (14, 600), (30, 600), (80, 600)];

/// The rows on the way to a node, and how many more nodes are looked at.
#[derive(Drop)]
struct Tree {
    rows: Vec<LinearRow>,
    left: u32,
}

/// What stands at a node.
#[derive(Drop)]
enum Node {
    /// The rows contradict each other.
    Nothing,
    /// Values that do.
    Values(Point),
    /// The ways to change those that do not.
    Ways(Vec<Way>),
}

/// Values of numbers at which all is so that is assigned of them. None where none are found.
pub fn point(prover: &mut Prover, fuel: &mut Fuel) -> Result<Option<Point>, SearchStop>
    ensures { fuel.new.left ≤ fuel.old.left }
{
    for (depth, nodes) in TREES {
        let mut tree = Tree {
            rows: Vec::new(prover.alloc),
            left: nodes,
        };
        let found = descend(prover, &mut tree, depth, fuel)?;
        if found.is_some() {
            return Ok(found);
        }
    }
    Ok(None)
}

/// Looks at a node, and at those behind it.
fn descend(
    prover: &mut Prover,
    tree: &mut Tree,
    depth: u32,
    fuel: &mut Fuel,
) -> Result<Option<Point>, SearchStop>
    ensures { fuel.new.left ≤ fuel.old.left }
{
    if depth == 0 || tree.left == 0 {
        return Ok(None);
    }
    tree.left -= 1;
    let ways = match look(prover, tree, fuel)? {
        Node::Nothing => return Ok(None),
        Node::Values(found) => return Ok(Some(found)),
        Node::Ways(ways) => ways,
    };
    for way in &ways {
        let before = tree.rows.len();
        put_rows(prover, *way, &mut tree.rows, fuel)?;
        let found = descend(prover, tree, depth - 1, fuel)?;
        tree.rows.truncate(before);
        if found.is_some() || tree.left == 0 {
            return Ok(found);
        }
    }
    Ok(None)
}

/// What stands at a node.
fn look(prover: &mut Prover, tree: &mut Tree, fuel: &mut Fuel) -> Result<Node, SearchStop>
    ensures { fuel.new.left ≤ fuel.old.left }
{
    let Some(found) = vertex_with(prover, &tree.rows, fuel)? else {
        return Ok(Node::Nothing);
    };
    match ways_on(prover, &found, &mut tree.rows, fuel)? {
        Some(ways) => Ok(Node::Ways(ways)),
        None => Ok(Node::Values(found)),
    }
}
