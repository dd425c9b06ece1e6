//! Worked files.

use crate::asserts::none_wrong;
use sgf_tree::{Node, Property, SgfError, TreeFault, read};
use std::alloc::{AllocError, Global};

/// Adds a property's name and its values in brackets to a text.
fn show_property(out: &mut Vec<u8>, property: &Property) -> Result<(), AllocError> {
    out.extend_from_slice(&property.name)?;
    for value in &property.values {
        out.push(b'[')?;
        out.extend_from_slice(value)?;
        out.push(b']')?;
    }
    Ok(())
}

/// Adds the nodes to a text: `;` for each node, and its properties.
fn show_nodes(out: &mut Vec<u8>, nodes: &[Node]) -> Result<(), AllocError> {
    for node in nodes {
        out.push(b';')?;
        for property in &node.properties {
            show_property(out, property)?;
        }
    }
    Ok(())
}

/// Whether the nodes as text are this.
fn are_shown(alloc: Global, nodes: &[Node], want: &[u8]) -> bool {
    let mut out = Vec::new(alloc);
    show_nodes(&mut out, nodes) == Ok(()) && out.as_slice() == want
}

/// A record and its main line.
static MAIN_LINES: [(&[u8], &[u8]); 10] = [
    (b"(;SZ[1])", b";SZ[1]"),
    (b"text ( (\n ;SZ[9]) more (;", b";SZ[9]"),
    (b"(;)", b";"),
    (
        b"(;A[1];B[2](;C[3];D[4](;E[5])(;F[6]))(;G[7]))",
        b";A[1];B[2];C[3];D[4];E[5]",
    ),
    (b"(;A[1](;B[2])(;C[3]))", b";A[1];B[2]"),
    (b"(;SiZe[9]size[7])", b";SZ[9][7]"),
    (b"( ; AB [aa] [bb]\t\x0bC[d] ; )", b";AB[aa][bb]C[d];"),
    (b"(;C[a\\]b\\\\c\\xd])", b";C[a]b\\cxd]"),
    (b"(;C[])", b";C[]"),
    (b"(;C[(;)[])", b";C[(;)[]"),
];

/// Whether a record has the main line.
fn has_main_line(alloc: Global, file: &[u8], want: &[u8]) -> bool {
    if file.len() >= 100 {
        return false;
    }
    match read(alloc, file) {
        Ok(tree) => are_shown(alloc, &tree.line, want),
        Err(_) => false,
    }
}

/// The first row of the table of main lines that isn't so.
fn wrong_line(alloc: Global) -> Option<usize> {
    for (at, row) in MAIN_LINES.iter().enumerate() {
        if !has_main_line(alloc, row.0, row.1) {
            return Some(at);
        }
    }
    None
}

#[test]
fn main_lines(rt: HostRuntime) {
    none_wrong(&rt, wrong_line(rt.alloc()));
}

/// A record and why it is refused.
static FAULTS: [(&[u8], TreeFault); 16] = [
    (b"", TreeFault::NoTree),
    (b"SZ[9]", TreeFault::NoTree),
    (b"(( SZ", TreeFault::NoTree),
    (b"(;SZ[8:2]AB[ba", TreeFault::CutShort),
    (b"(;C[a\\", TreeFault::CutShort),
    (b"(;SZ", TreeFault::CutShort),
    (b"(;(;)", TreeFault::CutShort),
    (b"((;(", TreeFault::CutShort),
    (b"(;SZ[9]]", TreeFault::BadByte(7)),
    (b"(;S Z[9])", TreeFault::BadByte(4)),
    (b"(;SZ;)", TreeFault::BadByte(4)),
    (b"(;(()))", TreeFault::BadByte(3)),
    (b"(;(;);)", TreeFault::BadByte(5)),
    (b"(;())", TreeFault::BadByte(3)),
    (b"(;1[2])", TreeFault::BadByte(2)),
    (b"(;[2])", TreeFault::BadByte(2)),
];

/// Whether a record is refused for this reason.
fn has_fault(alloc: Global, file: &[u8], want: TreeFault) -> bool {
    if file.len() > 2002 {
        return false;
    }
    match read(alloc, file) {
        Err(SgfError::Fault(fault)) => fault == want,
        _ => false,
    }
}

/// The first row of the table of faults that isn't so.
fn wrong_fault(alloc: Global) -> Option<usize> {
    for (at, row) in FAULTS.iter().enumerate() {
        if !has_fault(alloc, row.0, row.1) {
            return Some(at);
        }
    }
    None
}

#[test]
fn faults(rt: HostRuntime) {
    none_wrong(&rt, wrong_fault(rt.alloc()));
}

/// So many bytes of a file of brackets that aren't closed, and why they are refused.
static DEPTHS: [(usize, TreeFault); 4] = [
    (1999, TreeFault::CutShort),
    (2000, TreeFault::CutShort),
    (2001, TreeFault::TooDeep),
    (2002, TreeFault::TooDeep),
];

/// The first row of the table of depths that isn't so.
fn wrong_depth(alloc: Global, file: &[u8]) -> Option<usize> {
    for row in &DEPTHS {
        if row.0 > file.len() || !has_fault(alloc, &file[..row.0], row.1) {
            return Some(row.0);
        }
    }
    None
}

#[test]
fn depth(rt: HostRuntime) {
    let mut file = [b'('; 2002];
    for (at, byte) in file.iter_mut().enumerate() {
        if at % 2 == 1 {
            *byte = b';';
        }
    }
    none_wrong(&rt, wrong_depth(rt.alloc(), &file));
}

/// The number of nodes of the longest file of nodes.
fn longest_line(alloc: Global) -> Result<Option<usize>, AllocError> {
    let mut file = vec![in alloc; b';'; 1048576]?;
    file[0] = b'(';
    file[1048575] = b')';
    match read(alloc, &file) {
        Ok(tree) => Ok(Some(tree.line.len())),
        Err(_) => Ok(None),
    }
}

#[test]
fn longest_file_in_time(rt: HostRuntime) {
    assert!(rt; longest_line(rt.alloc()) == Ok(Some(1048574)));
}
