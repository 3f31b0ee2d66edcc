//! What a term takes times its coefficient.
ghost use Rattle.std.specs.Prelude.{◌≡◌};
ghost use Rattle.spelling.specs.Symbols.{symbol, number};

use netlist::terms::{Order, Term};

#[derive(Clone, Copy)]
pub(crate) enum Symbol {
    // The value of a variable.
    Value { variable: usize },
    // The rate of change of a variable.
    Rate { variable: usize },
    // The potential of a node.
    Potential { node: usize },
}

impl Symbol {
    // The symbol of a term on a sheet with `variables` variables.
    pub(crate) fn of(term: Term, variables: usize) -> Symbol
        ensures { result ≡ symbol variables term }
    {
        let variable = term.variable;
        if variable >= variables {
            return Symbol::Potential {
                node: variable - variables,
            };
        }
        match term.order {
            Order::Value => Symbol::Value { variable },
            Order::Rate => Symbol::Rate { variable },
        }
    }

    pub(crate) fn number(self) -> usize
        ensures { result ≡ number self }
    {
        match self {
            Symbol::Value { variable } | Symbol::Rate { variable } => variable,
            Symbol::Potential { node } => node,
        }
    }
}
