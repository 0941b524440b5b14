// Prices that may be there or not.
ghost use Rattle.std.specs.Prelude.{◌≡◌, true, false};
ghost use Rattle.readings.specs.inner.Least.{cheaper, joined};

use super::scale::Scale;

// The cheaper of two prices, the first where they are alike.
pub(crate) fn pick_cheaper<S: Scale>(a: Option<S::Price>, b: Option<S::Price>) -> Option<S::Price>
    ensures { result ≡ cheaper S.Scale.measure a b }
{
    match (a, b) {
        (Some(p), Some(q)) => Some(if S::no_dearer(p, q) { p } else { q }),
        _ => a.or(b),
    }
}

// The join of two prices, where both are there.
pub(crate) fn join_both<S: Scale>(a: Option<S::Price>, b: Option<S::Price>) -> Option<S::Price>
    ensures { result ≡ joined S.Scale.measure a b }
{
    a.zip(b).map(|(p, q)| S::join(p, q))
}

// Whether the offer is there and cheaper than the best so far.
pub(crate) fn improves<S: Scale>(best: Option<S::Price>, offer: Option<S::Price>) -> bool
    ensures no { result ≡ false → cheaper S.Scale.measure best offer ≡ best }
    ensures yes { result ≡ true → cheaper S.Scale.measure best offer ≡ offer }
{
    match (best, offer) {
        (Some(b), Some(o)) => !S::no_dearer(b, o),
        _ => best.is_none() && offer.is_some(),
    }
}
