//! One term of an equation.
ghost use Rattle.spelling.specs.Lines.{sign, term_text};
ghost use Rattle.spelling.specs.Symbols.{letter};

use crate::sinks::Sink;
use crate::symbols::Symbol;
use netlist::terms::Term;

// Every coefficient has a sign; that of 0 is `+`.
fn put_sign<S: Sink>(sink: &mut S, coefficient: i32)
    requires { S.has_room sink.old (sign coefficient) }
    ensures { S.puts sink.old (sign coefficient) sink.new }
{
    if coefficient < 0 {
        sink.put_byte(b'-');
    } else {
        sink.put_byte(b'+');
    }
}

fn put_letter<S: Sink>(sink: &mut S, symbol: Symbol)
    requires { S.has_room sink.old (letter symbol) }
    ensures { S.puts sink.old (letter symbol) sink.new }
{
    match symbol {
        Symbol::Value { .. } => sink.put_byte(b'v'),
        Symbol::Rate { .. } => sink.put_byte(b'r'),
        Symbol::Potential { .. } => sink.put_byte(b'p'),
    }
}

pub(crate) fn put_term<S: Sink>(sink: &mut S, term: Term, variables: usize)
    requires { S.has_room sink.old (term_text variables term) }
    ensures { S.puts sink.old (term_text variables term) sink.new }
{
    let symbol = Symbol::of(term, variables);
    put_sign(sink, term.coefficient);
    sink.put_number(term.coefficient.unsigned_abs() as usize);
    put_letter(sink, symbol);
    sink.put_number(symbol.number());
}
