//! The laws of a plan are judged in turn.
ghost use Rattle.std.specs.Prelude.{◌≡◌, length};
ghost use Rattle.assembly.specs.Meaning.{Proper, laws_of};
ghost use Rattle.plan_judging.specs.Alone.{judge_laws_of, CountsTerms};

use crate::refusals::PlaceRefusal;
use crate::terms::LawTerms;
use assembly::Assembly;
use draft::laws::accept_terms;

// Judges each law over so many variables, and answers how many terms they have together.
pub(crate) fn judge_laws<A: Assembly>(
    part: &A,
    laws: usize,
    variables: usize,
) -> Result<usize, PlaceRefusal>
    requires all { laws ≡ length (laws_of (A.Assembly.meaning part.now)) }
    requires proper { Proper (A.Assembly.meaning part.now) }
    ensures { let m = A.Assembly.meaning part.now in CountsTerms m (judge_laws_of m variables) result }
{
    let mut terms = 0;
    for k in 0..laws {
        let law = LawTerms::of(part, k, 0);
        if let Err(inner) = accept_terms(variables, law.as_slice()) {
            return Err(PlaceRefusal::Law {
                law: k as u16,
                inner,
            });
        }
        terms += law.as_slice().len();
    }
    Ok(terms)
}
