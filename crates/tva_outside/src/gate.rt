// What is told of each node before it is worked.

/// Is told of each node before the node is worked in a window. It has no effect on answers.
pub trait Gate: Sync {
    /// The node with that number is about to be worked.
    fn at_start(&self, node: u16);
}

/// A gate that does nothing.
#[derive(Clone, Copy, Debug)]
pub struct OpenGate;

impl Gate for OpenGate {
    fn at_start(&self, _node: u16) {}
}
