//! How laws are stored, counted, shown and cut off.
ghost use Rattle.std.specs.Prelude.{◌≡◌, ◌+◌, ℕ, true, ◌&&◌, [], ◌∷◌, ◌++◌, map, length, take, nat_lt, nat_le, IfOk};
ghost use Rattle.std.specs.List.{list_all};
ghost use Rattle.netlist.specs.Limits.{most_laws, most_terms};
ghost use Rattle.netlist.specs.Netlist.{term_of, term_count};
ghost use Rattle.netlist.specs.Sound.{names, is_sized, is_term_count};
ghost use Rattle.sheet.specs.Held.{laws_of};
ghost use Rattle.sheet.specs.Steps.{has_room, NamesNoMore};
ghost use Rattle.sheet.specs.Views.{laws_in};

use crate::laws::LawTable;
use crate::laws::bounds::name_drawn;
use crate::laws::raw::append;
use crate::views::LawView;
use netlist::limits::{MAX_LAWS, MAX_TERMS};
use netlist::spans::Span;
use netlist::terms::{RawTerm, Term};
use std::alloc::{AllocError, Global};

impl LawTable {
    pub(crate) fn new(heap: Global) -> Result<LawTable, AllocError>
        ensures { IfOk result (λ t. (laws_of t ≡ []) × (t.terms.items ≡ [])) }
    {
        Ok(LawTable {
            spans: Vec::with_capacity(heap, MAX_LAWS)?,
            terms: Vec::with_capacity(heap, MAX_TERMS)?,
        })
    }

    // How many laws there are.
    #[tactic(auto, using(crate::proofs::Sizes::law_count))]
    pub(crate) fn count(&self) -> usize
        ensures { result ≡ length (laws_of self.now) }
    {
        self.spans.len()
    }

    // Whether a law of so many terms finds room.
    #[tactic(auto, using(crate::proofs::Sizes::law_count, crate::proofs::Sizes::term_count_of))]
    pub(crate) fn has_room(&self, count: usize) -> bool
        ensures { result ≡ has_room (laws_of self.now) count }
    {
        self.spans.len() < MAX_LAWS && count <= MAX_TERMS - self.terms.len()
    }

    // Whether all laws name variables below this number.
    pub(crate) fn name_drawn(&self, variables: usize) -> bool
        ensures { result ≡ list_all (list_all (names variables)) (laws_of self.now) }
    {
        name_drawn(self.terms.as_slice(), variables)
    }

    // Stores a law that fits.
    pub(crate) fn add(&mut self, law: &[Term])
        requires room { has_room (laws_of self.old) (length law.now) ≡ true }
        requires count { is_term_count (length law.now) ≡ true }
        requires sized { list_all is_sized law.now ≡ true }
        ensures laws { laws_of self.new ≡ laws_of self.old ++ law.now ∷ [] }
        ensures terms { self.new.terms.items ≡ self.old.terms.items ++ law.now }
    {
        let span = Span {
            offset: self.terms.len(),
            length: law.len(),
        };
        self.terms.extend_from_slice(law).unwrap();
        self.spans.push_reserved(span);
    }

    // Stores the law for which raw terms stand, which fits.
    pub(crate) fn add_raw(&mut self, terms: &[RawTerm])
        requires room { has_room (laws_of self.old) (length terms.now) ≡ true }
        requires count { is_term_count (length terms.now) ≡ true }
        requires sized { list_all is_sized (map term_of terms.now) ≡ true }
        ensures laws { laws_of self.new ≡ laws_of self.old ++ map term_of terms.now ∷ [] }
        ensures terms { self.new.terms.items ≡ self.old.terms.items ++ map term_of terms.now }
    {
        let span = Span {
            offset: self.terms.len(),
            length: terms.len(),
        };
        append(&mut self.terms, terms);
        self.spans.push_reserved(span);
    }

    // Takes back the laws from this one on.
    pub(crate) fn cut(&mut self, laws: usize)
        ensures laws { laws_of self.new ≡ take laws (laws_of self.old) }
        ensures named { NamesNoMore self.old.terms.items self.new.terms.items }
    {
        if laws < self.spans.len() {
            let terms = self.spans[laws].offset;
            self.terms.truncate(terms);
            self.spans.truncate(laws);
        }
    }

    pub(crate) fn view(&self) -> LawView<'_>
        ensures { laws_in result ≡ laws_of self.now }
    {
        LawView::new(self.spans.as_slice(), self.terms.as_slice())
    }
}
