//! Components made of components, each known by its meaning alone.
#![tactic(auto)]

ghost use Rattle.std.specs.Prelude.{◌≡◌, length};
ghost use Rattle.std.specs.Option.{option_map};
ghost use Rattle.std.specs.List.{slice_get};
ghost use Rattle.assembly.specs.Meaning.{Meaning, Proper, is_void, size_of, domains_of, rows_of, laws_of, terms_of};

pub mod plans;

use netlist::domains::Domain;
use plans::{PlanRow, PlanTerm, Size};

/// A component between ends. Its meaning is void or a plan. Each query tells a part of the plan; past a
/// count or a length, and of a void assembly, it answers `None`. Asking changes nothing.
pub trait Assembly {
    ghost meaning: { Self → Meaning };

    /// How much the plan has of each thing; `None` where the assembly is void. Every plan keeps to its
    /// bounds, and whoever adds an assembly owes that here.
    fn size(&self) -> Option<Size>
        ensures value { result ≡ size_of (meaning self.now) }
        ensures proper { Proper (meaning self.now) };

    /// The domain of a node of the plan: the ends are numbered first, then the inner nodes.
    fn domain(&self, node: usize) -> Option<Domain>
        ensures { result ≡ slice_get (domains_of (meaning self.now)) node };

    /// Row `k`, in the plan's own numbers.
    fn row(&self, k: usize) -> Option<PlanRow>
        ensures { result ≡ slice_get (rows_of (meaning self.now)) k };

    /// The number of terms of law `k`.
    fn law_len(&self, k: usize) -> Option<usize>
        ensures { result ≡ option_map length (slice_get (laws_of (meaning self.now)) k) };

    /// Term `t` of law `k`.
    fn term(&self, k: usize, t: usize) -> Option<PlanTerm>
        ensures { result ≡ slice_get (terms_of (meaning self.now) k) t };

    /// Whether there is no plan.
    fn is_void(&self) -> bool
        ensures { result ≡ is_void (meaning self.now) }
    {
        self.size().is_none()
    }
}

/// An assembly that is lent is one too, of the same meaning.
impl<T: Assembly> Assembly for &T {
    ghost meaning = { λ s. T.Assembly.meaning s.now };

    fn size(&self) -> Option<Size> {
        (**self).size()
    }

    fn domain(&self, node: usize) -> Option<Domain> {
        (**self).domain(node)
    }

    fn row(&self, k: usize) -> Option<PlanRow> {
        (**self).row(k)
    }

    fn law_len(&self, k: usize) -> Option<usize> {
        (**self).law_len(k)
    }

    fn term(&self, k: usize, t: usize) -> Option<PlanTerm> {
        (**self).term(k, t)
    }
}
