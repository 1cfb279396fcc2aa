// What holds of all paths, for any number of levels. Nothing runs here: each contract is the law.
ghost use Rattle.std.specs.Prelude.{ℕ};
ghost use Rattle.paths.specs.PathLaws.{RoundTrip, PathOrder, Covering, Parents, Run};

// A path's number tells its steps, and its steps its number.
pub fn number_and_steps_round_trip()
    ensures { (n : ℕ) → RoundTrip n }
{}

// Path numbers are ordered as their steps are.
pub fn number_order_is_step_order()
    ensures { (n : ℕ) → PathOrder n }
{}

pub fn covering_is_an_order()
    ensures { (n : ℕ) → Covering n }
{}

// A parent has all steps but the last, and what covers it covers the path.
pub fn parents_cover()
    ensures { (n : ℕ) → Parents n }
{}

// What a path covers stands together in path order.
pub fn covered_paths_are_one_run()
    ensures { (n : ℕ) → Run n }
{}
