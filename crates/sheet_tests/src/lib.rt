//! Examples of tables and of sheets.
#![tactic(auto)]

#[cfg(test)]
mod tests {
    use netlist::domains::Domain;
    use netlist::rows::Row;
    use netlist::terms::{Order, RawTerm, Term};
    use sheet::{Counts, Sheet, Tables};
    use std::alloc::{AllocError, Global};
    use std::test::Fail;

    const BRANCH: Row = Row::Branch {
        flow: 0,
        across: 1,
        first: 0,
        second: 1,
    };

    // Two electrical nodes and three variables, with a branch on two of these.
    fn drawn(heap: Global) -> Result<Tables, AllocError> {
        let mut tables = Tables::new(heap)?;
        tables.add_node(Domain::Electrical);
        tables.add_node(Domain::Electrical);
        tables.add_variables(3);
        tables.add_row(BRANCH);
        Ok(tables)
    }

    // What is added first has number 0.
    #[test]
    fn numbers_go_up(rt: HostRuntime) -> Result<(), Fail> {
        let mut tables = Tables::new(rt.alloc())?;
        assert_eq!(rt; tables.add_node(Domain::Electrical), Some(0));
        assert_eq!(rt; tables.add_node(Domain::Electrical), Some(1));
        assert_eq!(rt; tables.add_variables(3), Some(0));
        assert_eq!(rt; tables.add_variables(1), Some(3));
        let earth = Row::Earth {
            flow: 2,
            across: 3,
            node: 1,
        };
        assert_eq!(rt; tables.add_row(BRANCH), Some(0));
        assert_eq!(rt; tables.add_row(earth), Some(1));
        assert_eq!(rt; tables.add_law(&[Term::value(1, 3)]), Some(0));
        Ok(())
    }

    // What names a thing that is not drawn, or is taken, does not fit.
    #[test]
    fn steps_that_do_not_fit(rt: HostRuntime) -> Result<(), Fail> {
        let mut tables = drawn(rt.alloc())?;
        assert_eq!(rt; tables.is_taken(1), Some(true));
        assert_eq!(rt; tables.is_taken(2), Some(false));
        assert_eq!(rt; tables.is_taken(3), None);
        assert_eq!(rt; tables.domain(2), None);
        assert_eq!(rt; tables.add_row(BRANCH), None);
        let twice = Row::Earth {
            flow: 2,
            across: 2,
            node: 0,
        };
        assert_eq!(rt; tables.add_row(twice), None);
        assert_eq!(rt; tables.add_variables(4000), None);
        assert_eq!(rt; tables.add_law(&[]), None);
        assert_eq!(rt; tables.add_law(&[Term::value(0, 0)]), None);
        assert_eq!(rt; tables.add_law(&[Term::value(1, 3)]), None);
        let counts = Counts {
            nodes: 2,
            variables: 3,
            rows: 1,
            laws: 0,
        };
        assert_eq!(rt; tables.counts(), counts);
        Ok(())
    }

    // A row of two domains does not fit.
    #[test]
    fn rows_of_two_domains(rt: HostRuntime) -> Result<(), Fail> {
        let mut tables = Tables::new(rt.alloc())?;
        assert_eq!(rt; tables.add_node(Domain::Electrical), Some(0));
        assert_eq!(rt; tables.add_node(Domain::Rotational), Some(1));
        assert_eq!(rt; tables.add_variables(2), Some(0));
        assert_eq!(rt; tables.add_row(BRANCH), None);
        assert_eq!(rt; tables.domain(1), Some(Domain::Rotational));
        Ok(())
    }

    // Laws are found by their numbers, and one after another.
    #[test]
    fn laws(rt: HostRuntime) -> Result<(), Fail> {
        let mut tables = drawn(rt.alloc())?;
        let one = [Term::value(200, 0), Term::value(-1, 1)];
        let other = [Term::value(1, 2)];
        assert_eq!(rt; tables.add_law(&one), Some(0));
        assert_eq!(rt; tables.add_law(&other), Some(1));
        let laws = tables.laws();
        assert_eq!(rt; laws.len(), 2);
        assert_eq!(rt; laws.term_count(), 3);
        assert_eq!(rt; laws.law(0), Some(&one[..]));
        assert_eq!(rt; laws.law(1), Some(&other[..]));
        assert_eq!(rt; laws.law(2), None);
        let mut left = laws.iter();
        assert_eq!(rt; left.next(), Some(&one[..]));
        assert_eq!(rt; left.next(), Some(&other[..]));
        assert_eq!(rt; left.next(), None);
        Ok(())
    }

    // A law as it is written is added as the terms for which it stands, or not at all.
    #[test]
    fn laws_as_written(rt: HostRuntime) -> Result<(), Fail> {
        let mut tables = drawn(rt.alloc())?;
        let mut law = [RawTerm::value(-1_000_000, 2), RawTerm::rate(1, 0)];
        let rate = Term {
            coefficient: 1,
            order: Order::Rate,
            variable: 0,
        };
        assert_eq!(rt; tables.add_raw_law(&law), Some(0));
        assert_eq!(rt;
            tables.laws().law(0),
            Some(&[Term::value(-1_000_000, 2), rate][..])
        );
        assert_eq!(rt; tables.add_raw_law(&law[1..]), Some(1));
        law[1].order = 2;
        assert_eq!(rt; tables.add_raw_law(&law), None);
        assert_eq!(rt; tables.add_raw_law(&[RawTerm::value(1, 3)]), None);
        assert_eq!(rt; tables.add_raw_law(&[RawTerm::value(1_000_001, 0)]), None);
        assert_eq!(rt; tables.add_raw_law(&[RawTerm::value(i64::MIN, 0)]), None);
        assert_eq!(rt; tables.add_raw_law(&[]), None);
        assert_eq!(rt; tables.add_raw_law(&[RawTerm::value(1, 0); 9]), None);
        assert_eq!(rt; tables.counts().laws, 2);
        Ok(())
    }

    // Nodes and variables are taken back only once nothing names them.
    #[test]
    fn cuts(rt: HostRuntime) -> Result<(), Fail> {
        let mut tables = drawn(rt.alloc())?;
        assert_eq!(rt; tables.add_law(&[Term::value(1, 0)]), Some(0));
        assert_eq!(rt; tables.add_law(&[Term::value(1, 2)]), Some(1));
        assert!(rt; !tables.cut_variables(2));
        assert!(rt; !tables.cut_nodes(1));
        tables.cut_laws(1);
        assert_eq!(rt; tables.laws().term_count(), 1);
        assert!(rt; tables.cut_variables(2));
        tables.cut_rows(0);
        assert_eq!(rt; tables.is_taken(0), Some(false));
        assert!(rt; !tables.cut_variables(0));
        assert!(rt; tables.cut_nodes(1));
        tables.cut_laws(0);
        assert!(rt; tables.cut_variables(0));
        let counts = Counts {
            nodes: 1,
            variables: 0,
            rows: 0,
            laws: 0,
        };
        assert_eq!(rt; tables.counts(), counts);
        Ok(())
    }

    // A sheet has what its tables had, and gives them up for others.
    #[test]
    fn sheets(rt: HostRuntime) -> Result<(), Fail> {
        let tables = drawn(rt.alloc())?;
        let mut sheet = Sheet::new(Tables::new(rt.alloc())?);
        let empty = sheet.replace(tables);
        assert_eq!(rt; empty.counts().nodes, 0);
        assert_eq!(rt; sheet.nodes(), 2);
        assert_eq!(rt; sheet.variables(), 3);
        assert_eq!(rt; sheet.rows(), &[BRANCH][..]);
        assert_eq!(rt; sheet.laws().len(), 0);
        Ok(())
    }

    // What was issued comes back whole as a sheet, which is asked all that its tables can be asked, and then gives
    // up its memory. No call hands it out to be drawn on.
    #[test]
    fn a_sheet_is_taken_out_whole(rt: HostRuntime) -> Result<(), Fail> {
        let mut sheet = Sheet::new(drawn(rt.alloc())?);
        let issued = std::mem::replace(&mut sheet, Sheet::new(Tables::new(rt.alloc())?));
        assert_eq!(rt; sheet.nodes(), 0);
        let counts = Counts {
            nodes: 2,
            variables: 3,
            rows: 1,
            laws: 0,
        };
        assert_eq!(rt; issued.tables().counts(), counts);
        assert_eq!(rt; issued.tables().domain(1), Some(Domain::Electrical));
        assert_eq!(rt; issued.tables().domain(2), None);
        assert_eq!(rt; issued.tables().is_taken(2), Some(false));
        assert_eq!(rt; issued.rows(), &[BRANCH][..]);
        let mut spare = issued.into_emptied();
        assert_eq!(rt; spare.counts().rows, 0);
        assert_eq!(rt; spare.add_node(Domain::Electrical), Some(0));
        Ok(())
    }
}
