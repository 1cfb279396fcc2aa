// The synchroniser: the leaf rule in code, and by specs/ what each call answers and leaves.
#![tactic(auto)]

pub mod answers;
pub mod laws;
pub mod leaf;
pub mod lent;
pub mod tally;

#[cfg(test)]
mod tests {
    use crate::leaf::{Kind, Outcome, Side, decide};
    use paths::grade::Grade;
    use paths::vector::Vector;

    #[test]
    fn two_empty_sides_have_no_outcome(rt: HostRuntime) {
        let side: Side<Option<Grade>> = Side {
            grade: None,
            vector: Vector { places: [0; 8] },
        };
        assert!(rt; decide(side, side).is_none());
        assert!(rt; Outcome::Conflict(Kind::RemovedAtSource) != Outcome::Kept);
        assert!(rt; u8::from(Kind::RemovedAtSource) == 4);
    }
}
