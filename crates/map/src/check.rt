// The check of a map's couplers.
ghost use Rattle.std.specs.Prelude.{◌≡◌, ◌<◌, length};
ghost use Rattle.chip.specs.Layout.{touches};
ghost use Rattle.map.specs.Couplers.{ends_in, repeated, bad_coupler, first_bad};

use crate::store::in_places;
use chip::meets;

// Whether two couplers join the same two places, in either order.
// Apart from `repeats`, so that a wrong test is refused at the source.
fn same_places(earlier: (u8, u8), ends: (usize, usize)) -> bool
    ensures { result ≡ touches earlier.0 earlier.1 ends }
{
    meets(in_places(earlier), ends)
}

// Whether a coupler before k joins the same two places.
fn repeats(couplers: &[(u8, u8)], k: usize) -> bool
    requires { k < length couplers.now }
    ensures { result ≡ repeated (ends_in couplers.now) k }
{
    let ends = in_places(couplers[k]);
    couplers[..k]
        .iter()
        .any(|&earlier| same_places(earlier, ends))
}

// Whether no chip with these places may have coupler k.
fn is_bad(places: usize, couplers: &[(u8, u8)], k: usize) -> bool
    requires { k < length couplers.now }
    ensures { result ≡ bad_coupler places (ends_in couplers.now) k }
{
    let (a, b) = in_places(couplers[k]);
    a >= places || b >= places || a == b || repeats(couplers, k)
}

// The first coupler that is bad, if one is.
pub(crate) fn first_bad(places: usize, couplers: &[(u8, u8)]) -> Option<usize>
    ensures { result ≡ first_bad places (length couplers.now) (ends_in couplers.now) }
{
    (0..couplers.len()).find(
        |&k|
            requires { k < length couplers.now }
        { is_bad(places, couplers, k) },
    )
}
