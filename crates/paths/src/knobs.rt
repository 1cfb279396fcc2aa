// One rule for each knob.
ghost use Rattle.paths.specs.Knobs.{EachMade};

use crate::grade::Knobs;

impl<K: Copy> Knobs<K> {
    // What the rule makes of each knob, or its first refusal.
    pub fn try_map<L: Copy, E, F: Fn(K) -> Result<L, E>>(self, rule: F) -> Result<Knobs<L>, E>
        requires { F.IsAlwaysCallable rule }
        ensures { EachMade (F.post rule) self result }
    {
        Ok(Knobs {
            lift: rule(self.lift)?,
            gamma: rule(self.gamma)?,
            gain: rule(self.gain)?,
            contrast: rule(self.contrast)?,
        })
    }
}
