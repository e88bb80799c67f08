ghost use Rattle.std.specs.Prelude.{◌≡◌};
ghost use Rattle.l2_inclusions.specs.Inclusions.{object_node};

use l2_runs::Member;

/// What sets of nodes are to keep. The node of an object is three times its number.
#[derive(Clone, Copy)]
pub enum Inclusion {
    /// The node has the member.
    Has(usize, Member),
    /// Whatever the first node has, the second one has.
    Copies(usize, usize),
    /// Whatever the objects in the first node's set have, the second one has.
    Loads(usize, usize),
    /// Whatever the second node has, the objects in the first one's set have.
    Stores(usize, usize),
}

/// The node of an object.
pub fn object_node(object: u32) -> usize
    ensures { result ≡ object_node object }
{
    3 * object as usize
}
