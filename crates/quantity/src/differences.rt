//! What one quantity has over another, of any kind.
ghost use Rattle.std.specs.Prelude.{◌≡◌};
ghost use Rattle.quantity.specs.Derived.{Negations};
ghost use Rattle.quantity.specs.Group.{minus};

use super::kind::Quantity;

/// `x` less `y`: zero exactly when the two are equal.
pub fn difference<K: Quantity>(x: K, y: K) -> K
    ensures value { result ≡ minus K.group x y }
    ensures equal { (result ≡ K.group.zero → x ≡ y) × (x ≡ y → result ≡ K.group.zero) }
    ensures negations { Negations K.group }
{
    x.sum(y.negation())
}
