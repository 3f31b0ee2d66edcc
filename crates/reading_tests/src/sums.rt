//! The sums that readings are checked by, on small rows and laws.
use netlist::rows::Row;
use netlist::terms::{Order, Term};
use quantity::{Phasor, Quantity, Whole};
use reading_sums::{
    Readings, law_sum, net_flow, node_excess, put_excesses, reading, value_or_rate,
};
use readings::equation_sum;

// From node 0 to node 1, from there to node 2, from node 2 to the earth, and from node 1 to itself.
fn rows() -> [Row; 4] {
    [
        Row::Branch {
            flow: 0,
            across: 1,
            first: 0,
            second: 1,
        },
        Row::Branch {
            flow: 2,
            across: 3,
            first: 1,
            second: 2,
        },
        Row::Earth {
            flow: 4,
            across: 5,
            node: 2,
        },
        Row::Branch {
            flow: 6,
            across: 7,
            first: 1,
            second: 1,
        },
    ]
}

// The flows of the four rows are 5, 3, 2 and 40.
fn values() -> [Whole; 8] {
    [
        Whole::new(5),
        Whole::new(10),
        Whole::new(3),
        Whole::new(20),
        Whole::new(2),
        Whole::new(30),
        Whole::new(40),
        Whole::new(50),
    ]
}

fn rate(coefficient: i32, variable: usize) -> Term {
    Term {
        coefficient,
        order: Order::Rate,
        variable,
    }
}

#[test]
fn what_is_lacking_counts_as_zero(rt: HostRuntime) {
    let values = values();
    let readings = Readings {
        values: &values,
        rates: &[],
    };
    assert_eq!(rt; reading(&values, 7).value, 50);
    assert_eq!(rt; reading(&values, 8).value, 0);
    assert_eq!(rt; node_excess(&rows(), &values[..2], 1).value, -5);
    assert_eq!(rt;
        law_sum(&[Term::value(1, 8), Term::value(2, 0)], readings).value,
        10
    );
}

#[test]
fn excess_of_each_node(rt: HostRuntime) {
    let rows = rows();
    let values = values();
    assert_eq!(rt; node_excess(&rows, &values, 0).value, 5);
    assert_eq!(rt; node_excess(&rows, &values, 1).value, -2);
    assert_eq!(rt; node_excess(&rows, &values, 2).value, -1);
    assert_eq!(rt; node_excess(&rows, &values, 3).value, 0);
}

// What the list held is of no matter, and a node past it is left out.
#[test]
fn excesses_of_all_nodes(rt: HostRuntime) {
    let rows = rows();
    let values = values();
    let nine = Whole::new(9);
    let mut sums = [nine; 4];
    put_excesses(&rows, &values, &mut sums[..2]);
    assert_eq!(rt; sums, [Whole::new(5), Whole::new(-2), nine, nine]);
    put_excesses(&rows, &values, &mut sums);
    let excesses = [Whole::new(5), Whole::new(-2), Whole::new(-1), Whole::new(0)];
    assert_eq!(rt; sums, excesses);
    put_excesses(&rows, &values, &mut sums[..0]);
    assert_eq!(rt; sums, excesses);
}

#[test]
fn net_flow_of_sets(rt: HostRuntime) {
    let rows = rows();
    let values = values();
    assert_eq!(rt; net_flow(&rows, &values, &[false, true, true]).value, -3);
    assert_eq!(rt; net_flow(&rows, &values, &[true, false, true]).value, 4);
    assert_eq!(rt; net_flow(&rows, &values, &[true, true, true]).value, 2);
    assert_eq!(rt; net_flow(&rows, &values, &[true, true]).value, 3);
    assert_eq!(rt; net_flow(&rows, &values, &[]).value, 0);
}

#[test]
fn laws_take_values_and_rates(rt: HostRuntime) {
    let values = values();
    let rates = [Whole::new(7), Whole::new(-8)];
    let readings = Readings {
        values: &values,
        rates: &rates,
    };
    let law = [Term::value(-250, 0), rate(12, 1), rate(3, 0)];
    assert_eq!(rt; value_or_rate(law[0], readings).value, 5);
    assert_eq!(rt; value_or_rate(law[1], readings).value, -8);
    assert_eq!(rt; law_sum(&law, readings).value, -1325);
}

#[test]
fn equations_take_potentials(rt: HostRuntime) {
    let values = values();
    let readings = Readings {
        values: &values,
        rates: &[],
    };
    let potentials = [Whole::new(100), Whole::new(90)];
    let row = [Term::value(1, 1), Term::value(-1, 8), Term::value(1, 9)];
    assert_eq!(rt; equation_sum(&row, 8, readings, &potentials).value, 0);
    assert_eq!(rt;
        equation_sum(&row, 8, readings, &potentials[..1]).value,
        -90
    );
    assert_eq!(rt;
        equation_sum(&row[..1], 1, readings, &potentials).value,
        100
    );
}

#[test]
fn phasors_add_up_by_parts(rt: HostRuntime) {
    let values = [
        Phasor::new(1, i64::MAX),
        Phasor::zero(),
        Phasor::new(-4, -1),
    ];
    let readings = Readings {
        values: &values,
        rates: &[],
    };
    assert!(rt; node_excess(&rows(), &values, 1).equals(Phasor::new(-5, i64::MIN)));
    assert!(rt; net_flow(&rows(), &values, &[true, true]).equals(Phasor::new(-4, -1)));
    assert!(rt; law_sum(&[Term::value(-2, 2)], readings).equals(Phasor::new(8, 2)));
}
