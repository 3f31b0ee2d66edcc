//! The sum of an equation: its terms, with single blanks between them.
//! A struct of `terms` and `variables` would be no plainer: it would be taken apart again at each term.
ghost use Rattle.spelling.specs.Lines.{rest_text, sum_text};

use crate::sinks::Sink;
use crate::terms::put_term;
use netlist::terms::Term;

// Puts the terms, each behind a blank.
fn put_rest<S: Sink>(sink: &mut S, terms: &[Term], variables: usize)
    requires { S.has_room sink.old (rest_text variables terms.now) }
    ensures { S.puts sink.old (rest_text variables terms.now) sink.new }
{
    for term in terms {
        sink.put_byte(b' ');
        put_term(sink, *term, variables);
    }
}

pub(crate) fn put_sum<S: Sink>(sink: &mut S, terms: &[Term], variables: usize)
    requires { S.has_room sink.old (sum_text variables terms.now) }
    ensures { S.puts sink.old (sum_text variables terms.now) sink.new }
{
    match terms {
        [] => sink.put(b"0"),
        [first, rest @ ..] => {
            put_term(sink, *first, variables);
            put_rest(sink, rest, variables);
        }
    }
}
