//! Reading a tree, one byte after the other.

ghost use Rattle.std.specs.Prelude.{◌≡◌, ◌≤◌, ◌<◌, ◌+◌, ◌^◌, ◌&&◌, ◌==◌, length, drop, OnOk, OnErr, MatchOption, IfSome, IfOk, sum_by};
ghost use Rattle.sgf_tree.specs.Reading.{AnswersFile, IsStart, NoStart, OneAnswer, most_open_trees};
ghost use Rattle.sgf_tree.specs.inner.Machine.{parts_of, state_of, with_value, with_property, with_node, with_letter, with_byte, property_ended, node_ended, parts_after, after, begin, verdict, Gives, is_open, is_done, is_close, depth_after};

use crate::fault::{SgfError, TreeFault};
use crate::machine::{Place, Token, is_white, next_place, read_token};
use crate::tree::{Node, Property, Tree};
use std::alloc::{AllocError, Global};
use std::mem;

/// The greatest length of a file that is read, in bytes.
pub const MOST_BYTES: usize = 1_048_576;

/// The most trees that may be open at once.
const MOST_OPEN: u32 = 1000;

/// The nodes so far, and the parts of the node that is being read.
#[derive(Drop)]
struct Draft {
    nodes: Vec<Node>,
    properties: Vec<Property>,
    name: Vec<u8>,
    values: Vec<Vec<u8>>,
    text: Vec<u8>,
}

impl Draft {
    fn end_value(&mut self) -> Result<(), AllocError>
        ensures { OnOk result (parts_of self.new ≡ with_value (parts_of self.old)) }
    {
        let alloc = *self.text.allocator();
        let text = mem::replace(&mut self.text, Vec::new(alloc));
        self.values.push(text)?;
        Ok(())
    }

    fn end_property(&mut self) -> Result<(), AllocError>
        ensures { OnOk result (parts_of self.new ≡ with_property (parts_of self.old)) }
    {
        let alloc = *self.name.allocator();
        let name = mem::replace(&mut self.name, Vec::new(alloc));
        let values = mem::replace(&mut self.values, Vec::new(alloc));
        self.properties.push(Property { name, values })?;
        Ok(())
    }

    fn end_node(&mut self) -> Result<(), AllocError>
        ensures { OnOk result (parts_of self.new ≡ with_node (parts_of self.old)) }
    {
        let alloc = *self.properties.allocator();
        let properties = mem::replace(&mut self.properties, Vec::new(alloc));
        self.nodes.push(Node { properties })?;
        Ok(())
    }

    fn push_letter(&mut self, byte: u8) -> Result<(), AllocError>
        ensures { OnOk result (parts_of self.new ≡ with_letter byte (parts_of self.old)) }
    {
        if byte.is_ascii_uppercase() {
            self.name.push(byte)?;
        }
        Ok(())
    }

    fn push_byte(&mut self, byte: u8) -> Result<(), AllocError>
        ensures { OnOk result (parts_of self.new ≡ with_byte byte (parts_of self.old)) }
    {
        self.text.push(byte)?;
        Ok(())
    }

    /// A property ends where something else than a value follows its values.
    fn leave_property(&mut self, place: Place) -> Result<(), AllocError>
        ensures { OnOk result (parts_of self.new ≡ property_ended place (parts_of self.old)) }
    {
        match place {
            Place::AfterValue => self.end_property(),
            _ => Ok(()),
        }
    }

    /// A node ends where a node follows it, or an inner tree, or the end of its tree.
    fn leave_node(&mut self, place: Place) -> Result<(), AllocError>
        ensures { OnOk result (parts_of self.new ≡ node_ended place (parts_of self.old)) }
    {
        match place {
            Place::Opened => Ok(()),
            _ => {
                self.leave_property(place)?;
                self.end_node()
            }
        }
    }

    /// Takes a byte of the main line.
    fn take(&mut self, place: Place, token: Token, byte: u8) -> Result<(), AllocError>
        ensures { OnOk result (parts_of self.new ≡ parts_after place token byte
            (parts_of self.old)) }
    {
        match token {
            Token::Open | Token::Close | Token::Node => self.leave_node(place),
            Token::Letter => {
                self.leave_property(place)?;
                self.push_letter(byte)
            }
            Token::Text => self.push_byte(byte),
            Token::ValueEnd => self.end_value(),
            _ => Ok(()),
        }
    }
}

/// Where the reading is, and what it has read of the main line.
#[derive(Drop)]
struct Reader {
    place: Place,
    depth: u32,
    on_main: bool,
    draft: Draft,
}

fn new_depth(token: Token, depth: u32) -> u32
    requires { depth ≤ most_open_trees }
    ensures { result ≡ depth_after token depth }
{
    match token {
        Token::Open => depth + 1,
        Token::Close => depth.saturating_sub(1),
        _ => depth,
    }
}

fn is_close(token: Token) -> bool
    ensures { result ≡ is_close token }
{
    matches!(token, Token::Close)
}

/// Whether a byte opens one tree too many.
fn is_too_deep(token: Token, depth: u32) -> bool
    ensures { result ≡ is_open token && (depth == most_open_trees) }
{
    match token {
        Token::Open => depth == MOST_OPEN,
        _ => false,
    }
}

fn ends_tree(place: Place) -> bool
    ensures { result ≡ is_done place }
{
    matches!(place, Place::Done)
}

impl Reader {
    fn new(alloc: Global) -> Self
        ensures { state_of result ≡ begin }
    {
        Reader {
            place: Place::Start,
            depth: 1,
            on_main: true,
            draft: Draft {
                nodes: Vec::new(alloc),
                properties: Vec::new(alloc),
                name: Vec::new(alloc),
                values: Vec::new(alloc),
                text: Vec::new(alloc),
            },
        }
    }

    /// Takes a byte. The main line is at its end once a tree has been closed.
    fn take(&mut self, token: Token, byte: u8) -> Result<(), AllocError>
        requires { self.old.depth ≤ most_open_trees }
        ensures { OnOk result (state_of self.new ≡ after (state_of self.old) token byte) }
    {
        if self.on_main {
            self.draft.take(self.place, token, byte)?;
        }
        self.on_main = self.on_main && !is_close(token);
        self.place = next_place(self.place, token, self.depth);
        self.depth = new_depth(token, self.depth);
        Ok(())
    }
}

/// The first place at which a tree begins.
#[tactic(auto, using(crate::proofs::StartLemmas::searching))]
fn find_start(bytes: &[u8]) -> Option<usize>
    ensures first { MatchOption result (NoStart bytes.now) (IsStart bytes.now) }
    ensures within { IfSome result (λ s. s < length bytes.now) }
{
    let mut opened = None;
    for (at, &byte) in bytes.iter().enumerate() {
        if byte == b'(' {
            opened = Some(at);
            continue;
        }
        let Some(start) = opened else {
            continue;
        };
        if byte == b';' {
            return Some(start);
        }
        if is_white(byte) {
            continue;
        }
        opened = None;
    }
    None
}

/// The main line of the tree that begins the bytes, which stand in the file from `start` on.
fn read_tree(alloc: Global, bytes: &[u8], start: usize) -> Result<Tree, SgfError>
    requires { start + length bytes.now ≤ MOST_BYTES }
    ensures { Gives (verdict begin 0 bytes.now) start result }
{
    let mut reader = Reader::new(alloc);
    for (n, &byte) in bytes.iter().enumerate() {
        let Some(token) = read_token(reader.place, byte) else {
            return Err(SgfError::Fault(TreeFault::BadByte((start + n) as u32)));
        };
        if is_too_deep(token, reader.depth) {
            return Err(SgfError::Fault(TreeFault::TooDeep));
        }
        reader.take(token, byte)?;
        if ends_tree(reader.place) {
            return Ok(Tree {
                line: reader.draft.nodes,
            });
        }
    }
    Err(SgfError::Fault(TreeFault::CutShort))
}

/// Reads the main line of the first tree of a file of at most 1,048,576 bytes. A fault is given exactly where the grammar
/// of SGF gives it.
#[tactic(auto, using(crate::proofs::SizeLemmas::counts_of))]
pub fn read(alloc: Global, bytes: &[u8]) -> Result<Tree, SgfError>
    requires { length bytes.now ≤ MOST_BYTES }
    ensures answer { AnswersFile bytes.now result }
    ensures few { IfOk result (λ t. (length t.line.items ≤ MOST_BYTES)
        × (sum_by (λ n. length n.properties.items) t.line.items ≤ MOST_BYTES)) }
{
    read_main_line(alloc, bytes)
}

fn read_main_line(alloc: Global, bytes: &[u8]) -> Result<Tree, SgfError>
    requires { length bytes.now ≤ MOST_BYTES }
    ensures { AnswersFile bytes.now result }
{
    match find_start(bytes) {
        Some(start) => read_tree(alloc, &bytes[start..], start),
        None => Err(SgfError::Fault(TreeFault::NoTree)),
    }
}

/// A file has at most one answer beside want of memory, so each answer of `read` comes exactly where its cause holds.
#[tactic(auto, using(crate::proofs::OneTreeLemmas::one_answer))]
pub fn one_answer()
    ensures { OneAnswer }
{}
