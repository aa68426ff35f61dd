// The one test of a region: laid out so, and the store that is seen obeys the rules.
#![tactic(auto)]

ghost use Rattle.std.specs.Prelude.{◌≡◌};
ghost use Rattle.model.specs.Fine.{fine};
ghost use Rattle.region.specs.Region.{view, good, Laid};

#[tactic(auto, unfolding(model::specs::Fine::fine))]
pub fn is_fine(region: &[u8]) -> bool
    requires { Laid region.now }
    ensures { result ≡ fine (view region.now) }
{
    rules::names_fine(region)
        && rules::lines_fine(region)
        && rules::rows_fine(region)
        && kept::locks_fine(region)
        && kept::room_fine(region)
        && nests::nests_fine(region)
}

// Whether a region is the image of a store that obeys the rules.
#[tactic(auto, unfolding(region::specs::Region::good))]
pub fn is_good(region: &[u8]) -> bool
    ensures { result ≡ good region.now }
{
    layout::is_laid(region) && is_fine(region)
}
