//! Tests of cases and theories: a new case at the edges, part counts, and who owns which kinds.
#![tactic(auto)]

#[cfg(test)]
mod tests {
    use cases::{CAPACITY, Case, parts_of};
    use std::process::Abort;
    use theories::{Plain, PublicKey, Reply, Theory, standard};

    // Row numbers at the edges: none, the first, the last that a case has room for, one more, and the largest.
    const EDGES: [u16; 5] = [0, 1, 1024, 1025, 65_535];

    #[test]
    fn new_case_has_no_rows(rt: HostRuntime) {
        let case = Case::open();
        assert_eq!(rt; CAPACITY, 1024);
        assert_eq!(rt; case.used(), 0);
        assert_eq!(rt; case.rows().len(), 0);
        for row in EDGES {
            assert!(rt; case.row(row).is_none());
            assert!(rt; case.kind(row).is_none());
        }
    }

    #[test]
    fn kinds_have_their_parts(rt: HostRuntime) {
        let counts = [0, 2, 1, 2, 1, 2, 2, 2, 2, 1, 1, 1, 2, 2, 2, 2];
        for (kind, count) in (0..16).zip(counts) {
            assert_eq!(rt; parts_of(kind), Some(count));
        }
        assert_eq!(rt; parts_of(16), None);
        assert_eq!(rt; parts_of(255), None);
    }

    // Checks that a theory owns the kinds in the list and no others.
    fn check_owner<T: Theory>(rt: &impl Abort, theory: &T, kinds: &[u8]) {
        for kind in 0..=255 {
            assert_eq!(rt; theory.owns(kind), kinds.contains(&kind));
        }
    }

    #[test]
    fn theories_own_their_kinds(rt: HostRuntime) {
        check_owner(&rt, &Plain, &[1, 2, 3, 7]);
        check_owner(&rt, &PublicKey, &[4, 5, 6]);
        check_owner(&rt, &Reply, &[8]);
        check_owner(&rt, &standard::theory(), &[1, 2, 3, 4, 5, 6, 7, 8]);
    }

    // Checks that a theory answers nothing about rows that are not in use.
    fn check_silent<T: Theory>(rt: &impl Abort, theory: &T, case: &Case) {
        for row in EDGES {
            assert!(rt; !theory.can_build(case, row));
            assert_eq!(rt; theory.takings(case, row), 0);
            for number in 0..4 {
                assert_eq!(rt; theory.taking(case, row, number), None);
            }
        }
    }

    #[test]
    fn nothing_is_answered_about_rows_not_in_use(rt: HostRuntime) {
        let case = Case::open();
        check_silent(&rt, &Plain, &case);
        check_silent(&rt, &PublicKey, &case);
        check_silent(&rt, &Reply, &case);
        check_silent(&rt, &standard::theory(), &case);
    }
}
