// What a location's home says.
ghost use Rattle.std.specs.Prelude.{◌≡◌};
ghost use Rattle.model.specs.Cxl0.{keeps};
ghost use Rattle.model.specs.Meaning.{home_of};
ghost use Rattle.model.specs.Sharers.{has};

use super::Home;
use super::codes::bit;

impl Home {
    // Its memory is persistent, where that of the machines of this set is: a crash of its owner does not clear it.
    #[tactic(auto, using(crate::proofs::Bits::has_byte), unfolding(crate::specs::Cxl0::keeps))]
    pub fn keeps(self, persistent: u8) -> bool
        ensures { result ≡ keeps (λ i. has i persistent) (home_of self) }
    {
        let owners = persistent & bit(self.owner) != 0;
        if self.differs { !owners } else { owners }
    }
}
