//! The main line of a tree.

/// A property: the capital letters of its name, and the bytes of its values without the escapes.
#[derive(Drop)]
pub struct Property {
    pub name: Vec<u8>,
    pub values: Vec<Vec<u8>>,
}

/// A node: its properties in the order of the file.
#[derive(Drop)]
pub struct Node {
    pub properties: Vec<Property>,
}

/// The nodes of the main line of a tree: its own nodes, then those of its first inner tree, and so on.
#[derive(Drop)]
pub struct Tree {
    pub line: Vec<Node>,
}
