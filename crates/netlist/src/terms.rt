//! The terms that an equation adds up to zero.
ghost use Rattle.std.specs.Prelude.{◌≡◌};
ghost use Rattle.netlist.specs.declared.terms.Order.TheVariants.{Value};
ghost use Rattle.netlist.specs.Orders.{IsOrderOf};

/// Whether a term takes the variable itself or its rate of change. Callers name one by its number: 0 is
/// the value, 1 the rate.
#[derive(Clone, Copy, PartialEq, Eq, Debug)]
pub enum Order {
    Value,
    Rate,
}

/// That no order has a number.
#[derive(Clone, Copy, PartialEq, Eq, Debug)]
pub struct NoOrder;

impl TryFrom<u32> for Order {
    type Error = NoOrder;

    ghost try_from_gives = { IsOrderOf };

    fn try_from(number: u32) -> Result<Order, NoOrder> {
        match number {
            0 => Ok(Order::Value),
            1 => Ok(Order::Rate),
            _ => Err(NoOrder),
        }
    }
}

/// The coefficient times the variable's value or rate.
#[derive(Clone, Copy, PartialEq, Eq, Debug)]
pub struct Term {
    pub coefficient: i32,
    pub order: Order,
    pub variable: usize,
}

impl Term {
    /// The coefficient times the variable's value.
    pub fn value(coefficient: i32, variable: usize) -> Term
        ensures { result ≡ record { coefficient = coefficient; order = Value; variable = variable } }
    {
        Term {
            coefficient,
            order: Order::Value,
            variable,
        }
    }
}

/// A term as a caller writes it, before it is judged: order 0 is the value, order 1 the rate, and any other
/// number may stand there and is refused. What numbers variables is a parameter, since a plan's variables
/// are numbered more narrowly than a sheet's.
#[derive(Clone, Copy, PartialEq, Eq, Debug)]
pub struct RawTerm<N = usize> {
    pub coefficient: i64,
    pub order: u32,
    pub variable: N,
}

impl<N> RawTerm<N> {
    /// The coefficient times the variable's value.
    pub fn value(coefficient: i64, variable: N) -> RawTerm<N>
        ensures { result ≡ record { coefficient = coefficient; order = 0; variable = variable } }
    {
        RawTerm {
            coefficient,
            order: 0,
            variable,
        }
    }

    /// The coefficient times the variable's rate of change.
    pub fn rate(coefficient: i64, variable: N) -> RawTerm<N>
        ensures { result ≡ record { coefficient = coefficient; order = 1; variable = variable } }
    {
        RawTerm {
            coefficient,
            order: 1,
            variable,
        }
    }
}
