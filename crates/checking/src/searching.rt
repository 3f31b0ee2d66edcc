//! The lowest law that fails, and the lowest node that has an excess.
ghost use Rattle.std.specs.Prelude.{◌≡◌, ℕ, ◌<◌, length, replicate, MatchOption};
ghost use Rattle.network.specs.First.{First};
ghost use Rattle.network.specs.Flows.{NodesKeep, FirstNode};
ghost use Rattle.network.specs.Laws.{LawsHold, FirstLaw};
ghost use Rattle.network.specs.Walks.{read};
ghost use Rattle.reading_sums.specs.Given.{given};

use quantity::Quantity;
use reading_sums::{Readings, law_sum, put_excesses};
use sheet::Sheet;
use walk_test::clear;

// The lowest law that fails.
pub(crate) fn first_law<K: Quantity>(sheet: &Sheet, readings: Readings<K>) -> Option<usize>
    ensures { let laws = sheet.now.laws in
        let r = given readings.entry in
        MatchOption result (LawsHold K.group laws r (length laws)) (FirstLaw K.group laws r) }
{
    let laws = sheet.laws();
    let _count = laws.len();
    laws.iter()
        .position(|law| !law_sum(law, readings).equals(K::zero()))
}

// The lowest place that is not zero.
fn first_sum<K: Quantity>(sums: &[K]) -> Option<usize>
    ensures { let KeepsAt = λ (n : ℕ). read K.group sums.now n ≡ K.group.zero in
        let m = length sums.now in
        MatchOption result ((n : ℕ) → n < m → KeepsAt n) (First KeepsAt (λ n. KeepsAt n → ⊥) m) }
{
    sums.iter().position(|sum| !sum.equals(K::zero()))
}

// The lowest node that has an excess. The excesses are added up in a list with a place for each node, which is
// zero afterwards.
pub(crate) fn first_node<K: Quantity>(sheet: &Sheet, values: &[K], sums: &mut [K]) -> Option<usize>
    requires { length sums.old ≡ length sheet.now.domains }
    ensures found { let b = sheet.now in
        let n = length b.domains in
        MatchOption result (NodesKeep K.group b.rows values.now n) (FirstNode K.group b.rows values.now n) }
    ensures cleared { sums.new ≡ replicate (length sums.old) K.group.zero }
{
    put_excesses(sheet.rows(), values, sums);
    let first = first_sum(sums);
    clear(sums);
    first
}
