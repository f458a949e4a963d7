ghost use Rattle.std.specs.Prelude.{◌≡◌, ◌*◌, ◌/◌, ◌%◌, ◌^◌, ◌<◌, ◌↔◌, IsTrue};
ghost use Rattle.pim_aig.specs.Literals.{complement, node, plain};

/// A literal: twice the number of its node, and one more where it is the node's complement.
#[derive(Clone, Copy, Debug, PartialEq, Eq)]
pub struct Lit(pub u32);

impl Lit {
    /// The constant false: the plain literal of node 0.
    pub const FALSE: Lit = Lit(0);
    /// The constant true: the complement of node 0.
    pub const TRUE: Lit = Lit(1);

    /// The plain literal of a node.
    pub fn plain(node: u32) -> Lit
        requires { node < 2 ^ 31 }
        ensures { result ≡ plain node }
    {
        Lit(2 * node)
    }

    /// The node that the literal is of.
    pub fn node(self) -> u32
        ensures { result ≡ node self }
    {
        self.0 / 2
    }

    /// Whether the literal is its node's complement.
    pub fn is_complemented(self) -> bool
        ensures { IsTrue result ↔ (self.0 % 2 ≡ 1) }
    {
        self.0 % 2 == 1
    }

    /// The literal of the same node with the other sign.
    pub fn complement(self) -> Lit
        ensures { result ≡ complement self }
    {
        if self.0 % 2 == 0 {
            Lit(self.0 + 1)
        } else {
            Lit(self.0 - 1)
        }
    }
}
