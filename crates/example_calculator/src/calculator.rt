//! Answers lines, and remembers the values of names.
use crate::fault::{Fault, Reason};
use crate::lexer::{Kind, Token, tokens_of};
use crate::tree::{Node, tree_of};
use arcintern::{Interner, SymbolMap};
use arcstr::view::StrView;
use std::alloc::Global;
use std::io;

/// The names, and the values of those that have one.
#[derive(Drop)]
pub struct Calculator {
    names: Interner,
    values: SymbolMap<i64>,
}

impl Calculator {
    /// A calculator without names.
    pub fn new(alloc: Global) -> Calculator {
        Calculator {
            names: Interner::new(alloc),
            values: SymbolMap::new(alloc),
        }
    }

    /// Reads a line: nothing if it has no token, a new value of a name if it begins with a name and
    /// `=`, and otherwise an expression, whose value it returns.
    pub fn answer(&mut self, alloc: Global, line: &StrView<'_>) -> Result<Option<i64>, Fault> {
        let tokens = tokens_of(alloc, &mut self.names, line)?;
        let end = line.trim_end().range().end;
        match tokens.as_slice() {
            [] => Ok(None),
            [
                Token {
                    kind: Kind::Name(name),
                    ..
                },
                Token {
                    kind: Kind::Equals,
                    ..
                },
                rest @ ..,
            ] => {
                let value = self.value_of(alloc, rest, end)?;
                self.values.insert(*name, value)?;
                Ok(None)
            }
            tokens => Ok(Some(self.value_of(alloc, tokens, end)?)),
        }
    }

    /// The value of an expression, which ends at this byte offset.
    fn value_of(&self, alloc: Global, tokens: &[Token], end: usize) -> Result<i64, Fault> {
        let tree = tree_of(alloc, tokens, end)?;
        let mut values = Vec::new(alloc);
        let mut last = end;
        for (node, place) in &tree {
            let missing = match node {
                Node::Name(_) => Reason::NoValue,
                Node::Number(_) | Node::Operation(..) => Reason::NoResult,
            };
            let value = self.value_at(node, &values);
            values.push(value.ok_or(Fault::at(*place, missing))?)?;
            last = *place;
        }
        let value = values.pop().ok_or(Fault::at(end, Reason::NoOperand))?;
        i64::try_from(value).map_err(|_| Fault::at(last, Reason::LargeNumber))
    }

    /// The value of a node, if it has one. `before` has the values of the nodes before it.
    fn value_at(&self, node: &Node, before: &[i128]) -> Option<i128> {
        match node {
            Node::Number(number) => Some(i128::from(*number)),
            Node::Name(name) => Some(i128::from(*self.values.get(*name)?)),
            Node::Operation(operator, left, right) => {
                operator.apply(*before.get(*left)?, *before.get(*right)?)
            }
        }
    }

    /// Prints each name that has a value, in the order in which the names came.
    pub fn print_values(&self, rt: &impl Print) -> io::Result<()> {
        for (name, value) in self.values.iter() {
            if let Some(name) = self.names.resolve(name) {
                println!(rt; "{name} = {value}")?;
            }
        }
        Ok(())
    }
}
