//! The laws of a sheet, as a reader sees them.
ghost use Rattle.std.specs.Prelude.{◌≡◌, true, length};
ghost use Rattle.sheet.specs.Tiling.{tile};

use netlist::spans::Span;
use netlist::terms::Term;

/// The laws of a sheet. Each is found at once, by where it begins.
#[derive(Clone, Copy)]
pub struct LawView<'a> {
    spans: &'a [Span],
    terms: &'a [Term],
    ghost tiled: { tile 0 spans.now (length terms.now) ≡ true },
}

/// The laws that are left, each by its terms.
#[derive(Drop)]
pub struct LawIter<'a> {
    view: LawView<'a>,
    at: usize,
}

impl<'a> LawView<'a> {
    ghost use Rattle.std.specs.Prelude.{◌≡◌, ◌≤◌, true, length, MatchOption};
    ghost use Rattle.netlist.specs.Netlist.{term_count};
    ghost use Rattle.sheet.specs.Asking.{IsLaw};
    ghost use Rattle.sheet.specs.Tiling.{tile};
    ghost use Rattle.sheet.specs.Views.{laws_in, laws_left};

    /// Over a table of terms that laws of these places fill.
    pub(crate) fn new(spans: &'a [Span], terms: &'a [Term]) -> LawView<'a>
        requires { tile 0 spans.now (length terms.now) ≡ true }
        ensures spans { result.spans.now ≡ spans.now }
        ensures terms { result.terms.now ≡ terms.now }
    {
        LawView { spans, terms }
    }

    /// How many laws there are.
    #[tactic(auto, using(crate::proofs::Tiling::law_count_in))]
    pub fn len(&self) -> usize
        ensures { result ≡ length (laws_in self.now) }
    {
        self.spans.len()
    }

    /// How many terms they have together.
    #[tactic(auto, using(crate::proofs::Tiling::term_count_in))]
    pub fn term_count(&self) -> usize
        ensures { result ≡ term_count (laws_in self.now) }
    {
        self.terms.len()
    }

    /// The terms of law `k`, if there is one.
    #[tactic(auto, using(crate::proofs::Tiling::law_count_in, crate::proofs::Tiling::span_within))]
    pub fn law(&self, k: usize) -> Option<&'a [Term]>
        ensures { let laws = laws_in self.now in MatchOption result (length laws ≤ k) (λ law. IsLaw laws k law.now) }
    {
        if k >= self.spans.len() {
            return None;
        }
        let span = self.spans[k];
        let end = span.offset + span.length;
        Some(&self.terms[span.offset..end])
    }

    /// The laws one by one, each by its terms.
    pub fn iter(&self) -> LawIter<'a>
        ensures { laws_left result ≡ laws_in self.now }
    {
        LawIter { view: *self, at: 0 }
    }
}

impl<'a> Iterator for LawIter<'a> {
    ghost use Rattle.std.specs.Prelude.{length};
    ghost use Rattle.std.specs.Iterator.{YieldsFirstRef, item_count};
    ghost use Rattle.sheet.specs.Views.{laws_left};

    type Item = &'a [Term];

    ghost next_gives = { YieldsFirstRef laws_left };

    ghost remaining = { item_count laws_left };

    fn next(&mut self) -> Option<&'a [Term]> {
        if self.at >= self.view.len() {
            return None;
        }
        let law = self.view.law(self.at)?;
        self.at += 1;
        Some(law)
    }
}

impl<'a> IntoIterator for LawView<'a> {
    ghost use Rattle.std.specs.Prelude.{◌≡◌};
    ghost use Rattle.sheet.specs.Views.{laws_in, laws_left};

    type Item = &'a [Term];

    type IntoIter = LawIter<'a>;

    ghost into_iter_gives = { λ view laws. laws_left laws ≡ laws_in view };

    fn into_iter(self) -> LawIter<'a> {
        self.iter()
    }
}
