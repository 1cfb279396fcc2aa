// A store's fault on its way up: the call adds its site, and `?` turns both, by `From`, into the call's fault. A rule of the
// project has it so, so that no call builds the fault by hand.
ghost use Rattle.std.specs.Prelude.{◌≡◌};
ghost use Rattle.paths.specs.declared.fault.Fault.TheVariants.{Store};
ghost use Rattle.stores.specs.Located.{at_site};

use paths::fault::{Fault, Site, StoreFault};

#[derive(Clone, Copy, PartialEq, Eq)]
pub struct Located {
    pub site: Site,
    pub fault: StoreFault,
}

impl From<Located> for Fault {
    ghost from_gives = { λ l r. r ≡ Store l.site l.fault };

    fn from(located: Located) -> Fault {
        Fault::Store(located.site, located.fault)
    }
}

// What a store answered, with the site of the call where it refused.
pub fn at_site<T>(answer: Result<T, StoreFault>, site: Site) -> Result<T, Located>
    ensures { result ≡ at_site site answer }
{
    answer.map_err(|fault| Located { site, fault })
}
