// Oracles over oracles.
#![tactic(auto)]

ghost use Rattle.std.specs.Prelude.{◌≡◌};
ghost use Rattle.layers.specs.AskedLaws.{BothAsksSides, QuotaAsksBelow, CoverAsksBelow, QuotaTakes};
ghost use Rattle.layers.specs.Layered.{lesser as lesser_of};

mod both;
mod cover;
mod kept_sets;
mod quota;

pub use both::Both;
pub use cover::Cover;
use oracle::Oracle;
pub use quota::Quota;

// The smaller of two allowances; an endless one is the largest.
fn lesser(a: Option<u32>, b: Option<u32>) -> Option<u32>
    ensures { result ≡ lesser_of a b }
{
    match (a, b) {
        (Some(a), Some(b)) => Some(a.min(b)),
        _ => a.or(b),
    }
}

/// What Both asks of its sides in terms of what they mean, as a theorem over all oracles: see
/// specs/AskedLaws.antt.
pub fn both_asks_sides<L: Oracle, R: Oracle>()
    ensures { BothAsksSides L.meaning R.meaning L.check_leads R.check_leads
        L.grant_leads R.grant_leads }
{}

/// What a quota asks below, in the same way.
pub fn quota_asks_below<O: Oracle>()
    ensures { QuotaAsksBelow O.meaning O.check_leads O.grant_leads }
{}

/// What a cover asks below, in the same way.
pub fn cover_asks_below<O: Oracle>()
    ensures { CoverAsksBelow O.meaning O.check_leads O.grant_leads }
{}

/// Over an oracle whose checks are endless a quota takes one of its number for each answered check,
/// and tells its own label at nought, as a theorem.
pub fn quota_takes_each<O: Oracle>()
    ensures { QuotaTakes O.meaning O.check_leads }
{}
